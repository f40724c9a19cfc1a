ghost use Rattle.std.specs.Prelude.{◌≡◌};
ghost use Rattle.std.specs.List.{list_all};
ghost use Rattle.wire_xdr.specs.code.Classes.{class_test};

/// Which bytes a string may have: any, those of an item's name, or those of a volume's.
#[derive(Clone, Copy)]
pub enum Class {
    Any,
    Item,
    Volume,
}

impl Class {
    /// Whether the class has this byte.
    fn has(self, b: u8) -> bool
        ensures { result ≡ class_test self b }
    {
        match self {
            Class::Any => true,
            Class::Item => 33 <= b && b <= 126 && b != b'/',
            Class::Volume => {
                (b'0' <= b && b <= b'9')
                    || (b'A' <= b && b <= b'Z')
                    || (b'a' <= b && b <= b'z')
                    || b == b'_'
                    || b == b'-'
                    || b == b'.'
            }
        }
    }

    /// Whether the class has all of these bytes.
    pub fn has_all(self, bytes: &[u8]) -> bool
        ensures { result ≡ list_all (class_test self) bytes.now }
    {
        bytes.iter().all(|b| self.has(*b))
    }
}
