ghost use Rattle.std.specs.Prelude.{◌≡◌};
ghost use Rattle.xl_base.specs.Memory.{is_listed as is_listed_in};

// Whether the list has the number.
pub(crate) fn is_listed(numbers: &[u32], number: u64) -> bool
    ensures { result ≡ is_listed_in numbers.now number }
{
    numbers.iter().any(|n| *n as u64 == number)
}
