ghost use Rattle.std.specs.Prelude.{◌≡◌};
ghost use Rattle.script_lang.specs.Kinds.{earlier as earlier_of, order as order_of};

use crate::errors::ScriptKind;

impl ScriptKind {
    // The place of the kind among those that hold of one line.
    fn order(self) -> u8
        ensures { result ≡ order_of self }
    {
        match self {
            ScriptKind::BadByte => 0,
            ScriptKind::LongLine => 1,
            ScriptKind::Unexpected => 2,
            ScriptKind::WordCount => 3,
            ScriptKind::BadWord => 4,
            ScriptKind::Repeated => 5,
            ScriptKind::Unknown => 6,
            ScriptKind::TooMany => 7,
            ScriptKind::TwoGreat => 8,
            ScriptKind::Unclosed => 9,
            ScriptKind::NoStart => 9,
            ScriptKind::NotFollowing => 9,
            ScriptKind::TooLong => 9,
            ScriptKind::Vol(_) => 9,
            ScriptKind::Later => 9,
        }
    }

    // Of two kinds that hold of one line the one that is reported.
    pub(crate) fn or_earlier(self, other: ScriptKind) -> ScriptKind
        ensures { result ≡ earlier_of self other }
    {
        if self.order() <= other.order() {
            self
        } else {
            other
        }
    }
}
