ghost use Rattle.std.specs.Prelude.{ℕ, ◌≡◌, ◌<◌, ◌≤◌, ◌+◌, ◌*◌, ◌^◌, length, vec_len, vec_capacity};
ghost use Rattle.frame_stack.specs.Cells.{put_at};
ghost use Rattle.frame_stack.specs.Stack.{word_of};

// The word of a slot, 0 where it was never opened.
pub(crate) fn word_in(words: &[u64], slot: u32) -> u64
    ensures { result ≡ word_of words.now slot }
{
    match words.get(slot as usize) {
        Some(word) => *word,
        None => 0,
    }
}

// Makes the free word of a slot, or a first one at the end, pending, and gives its turn.
pub(crate) fn open_word(words: &mut Vec<u64>, slot: usize) -> u32
    requires within { slot ≤ length words.old.items }
    requires room { vec_len words.old < vec_capacity words.old }
    requires free { (turn : ℕ) × (turn < 2 ^ 32) × (word_of words.old.items slot ≡ turn * 4) }
    ensures turn { word_of words.old.items slot ≡ result * 4 }
    ensures pending { words.new.items ≡ put_at words.old.items slot (result * 4 + 1) }
{
    if slot == words.len() {
        words.push_reserved(1);
        return 0;
    }
    let word = words[slot];
    words[slot] = word + 1;
    (word / 4) as u32
}
