ghost use Rattle.std.specs.Prelude.{◌≡◌, IfSome};

/// What a kind of refusal means to the author of a script: what is wrong, what was expected in its place, and
/// the part of docs/FORMATS.md that has the rule.
pub struct Meaning {
    pub kind: &'static str,
    pub wrong: &'static str,
    pub expected: &'static str,
    pub part: &'static str,
}

const MEANINGS: [Meaning; 38] = [
    Meaning {
        kind: "VolBadByte",
        wrong: "a byte outside 32 to 126 that is no tab or carriage return, outside a comment",
        expected: "visible ASCII, spaces, tabs and carriage returns; other bytes in comments only",
        part: "The volfile",
    },
    Meaning {
        kind: "VolBackquote",
        wrong: "a backquote outside a comment",
        expected: "no backquote: nothing in a volfile is run as a command",
        part: "The volfile",
    },
    Meaning {
        kind: "VolOpenQuote",
        wrong: "a quoted text that does not end in its line, touches a word, or is no option's value",
        expected: "`option KEY \"VALUE\"`, a blank before the first quote, both quotes in one line",
        part: "The volfile",
    },
    Meaning {
        kind: "VolUnexpected",
        wrong: "the line's first word is no statement that may be here",
        expected: "`volume NAME` or `end-volfile` outside a block; in a block `type` and `subvolumes` once, `option`, `end-volume`",
        part: "The volfile",
    },
    Meaning {
        kind: "VolWordCount",
        wrong: "too few or too many words for the statement",
        expected: "`volume NAME`, `type CATEGORY/KIND`, `option KEY VALUE`, `subvolumes NAME ..`, `end-volume`",
        part: "The volfile",
    },
    Meaning {
        kind: "VolBadWord",
        wrong: "a volume's name is no name, or a type is not two parts with one `/`",
        expected: "names of 1 to 64 letters, digits, `_`, `-` and `.`; types such as protocol/client",
        part: "The volfile",
    },
    Meaning {
        kind: "VolRepeated",
        wrong: "an earlier volume of this volfile has the name",
        expected: "a name of its own for each volume",
        part: "The volfile",
    },
    Meaning {
        kind: "VolUnknownSubvolume",
        wrong: "a subvolume is not defined before this line",
        expected: "names of volumes whose blocks have ended",
        part: "The volfile",
    },
    Meaning {
        kind: "VolMissingType",
        wrong: "the block ends without a type",
        expected: "a line `type CATEGORY/KIND` before `end-volume`",
        part: "The volfile",
    },
    Meaning {
        kind: "VolTooMany",
        wrong: "a 257th volume begins",
        expected: "at most 256 volumes in a volfile",
        part: "The volfile",
    },
    Meaning {
        kind: "VolUnclosed",
        wrong: "the volfile ends inside a block",
        expected: "`end-volume` before `end-volfile`",
        part: "The volfile",
    },
    Meaning {
        kind: "VolEmpty",
        wrong: "the volfile has no volume",
        expected: "one block or more, from `volume NAME` to `end-volume`",
        part: "The volfile",
    },
    Meaning {
        kind: "BadByte",
        wrong: "a byte outside 32 to 126 that is no tab or carriage return, outside a comment",
        expected: "visible ASCII, spaces, tabs and carriage returns; other bytes in comments only",
        part: "The script",
    },
    Meaning {
        kind: "LongLine",
        wrong: "the line is longer than 140,000 bytes",
        expected: "at most 140,000 bytes before the line feed, in comments and volfiles too",
        part: "The script",
    },
    Meaning {
        kind: "Unexpected",
        wrong: "the line's first word may not be here",
        expected: "bricks, then volfiles, then one `start`, then phases of `do` and `control` lines",
        part: "The script",
    },
    Meaning {
        kind: "WordCount",
        wrong: "too few or too many words for the statement, the call or the action",
        expected: "the words of the tables of statements, calls and actions",
        part: "The script",
    },
    Meaning {
        kind: "BadWord",
        wrong: "a word does not have the form of its place, or `before` has an action that may not come there",
        expected: "a call, action or procedure of the tables, or a name, path, mode, number or data of its form; with `before` a `down` or `fault` of the same brick",
        part: "The script",
    },
    Meaning {
        kind: "Repeated",
        wrong: "an earlier line has the name, or the pair of host and path",
        expected: "a name of its own for each brick and volfile, and one brick for a host and path",
        part: "The script",
    },
    Meaning {
        kind: "Unknown",
        wrong: "no brick or volfile of this name is defined",
        expected: "a name of a `brick` or `volfile` line above",
        part: "The script",
    },
    Meaning {
        kind: "TooMany",
        wrong: "the line passes a limit",
        expected: "at most 60 bricks, 16 volfiles, 64 sessions, 4,096 phases and 4,096 `do` lines",
        part: "The script",
    },
    Meaning {
        kind: "TwoGreat",
        wrong: "a second `heal` or `switch` in one phase",
        expected: "at most one of them in a phase",
        part: "The script",
    },
    Meaning {
        kind: "Unclosed",
        wrong: "the script ends inside a volfile",
        expected: "a line `end-volfile`",
        part: "The script",
    },
    Meaning {
        kind: "NoStart",
        wrong: "the script ends without a `start` line",
        expected: "`start NAME` after the volfiles, with the name of one of them",
        part: "The script",
    },
    Meaning {
        kind: "NotFollowing",
        wrong: "the volfile of this `switch` does not follow the newest one",
        expected: "first the same sets, with the same bricks in the same order and the same client names; then sets of new bricks",
        part: "Plans",
    },
    Meaning {
        kind: "TooLong",
        wrong: "the script is longer than 2,097,152 bytes, or the whole text of a replay than 4,294,967,295",
        expected: "at most 2,097,152 bytes of a script, and for `replay` 4,294,967,295 with its report",
        part: "The script",
    },
    Meaning {
        kind: "NoReport",
        wrong: "the text ends without a report",
        expected: "a script, and behind it a report, which begins with the line `report 1`",
        part: "Refusals",
    },
    Meaning {
        kind: "BadReport",
        wrong: "no report has this line after the lines before it, or it is the last line and they end too early",
        expected: "the lines of a report up to `end`, in their order, as a run writes them",
        part: "The report",
    },
    Meaning {
        kind: "PlanUnknownKind",
        wrong: "the volume's type is not known",
        expected: "one of the types of the table, such as protocol/client or cluster/replicate",
        part: "Plans",
    },
    Meaning {
        kind: "PlanSubvolumeCount",
        wrong: "the wrong number of subvolumes for the volume's type",
        expected: "none for a client, one or more for cluster/distribute, one for every other type but cluster/replicate",
        part: "Plans",
    },
    Meaning {
        kind: "PlanBadReplica",
        wrong: "a replicate volume without three subvolumes, or with an arbiter",
        expected: "three subvolumes, `arbiter-count` 0 or left out, no `thin-arbiter`",
        part: "Plans",
    },
    Meaning {
        kind: "PlanNotAuto",
        wrong: "`quorum-type` of a replicate volume is not auto",
        expected: "`option quorum-type auto`, or no such option",
        part: "Plans",
    },
    Meaning {
        kind: "PlanNoBrick",
        wrong: "the client names no brick of the script",
        expected: "`remote-host` and `remote-subvolume` equal to host and path of a `brick` line",
        part: "Plans",
    },
    Meaning {
        kind: "PlanBrickTwice",
        wrong: "an earlier client of the volfile has the brick",
        expected: "one client for each brick",
        part: "Plans",
    },
    Meaning {
        kind: "PlanBadOption",
        wrong: "`cache-size` is no size",
        expected: "bytes, or a number joined to KB, MB or GB, below 2^64 bytes",
        part: "Plans",
    },
    Meaning {
        kind: "PlanUsedTwice",
        wrong: "a subvolume is below an earlier volume too, or twice below this one",
        expected: "each volume below one other",
        part: "Plans",
    },
    Meaning {
        kind: "PlanNestedCluster",
        wrong: "a volume of this type may not be above what is below it",
        expected: "replicate above clients, distribute above sets, io-cache and io-threads above all sets, one distribute and one io-cache on a path",
        part: "Plans",
    },
    Meaning {
        kind: "PlanTooDeep",
        wrong: "a path down from this volume has more than 24 volumes",
        expected: "at most 24, this one counted",
        part: "Plans",
    },
    Meaning {
        kind: "PlanUnused",
        wrong: "no volume uses this one, and it is not the last",
        expected: "each volume but the last below another",
        part: "Plans",
    },
];

// The first of these meanings whose kind has the name.
fn find<'a>(meanings: &'a [Meaning], kind: &str) -> Option<&'a Meaning>
    ensures { IfSome result (λ meaning. meaning.now.kind.now ≡ kind.now) }
{
    for meaning in meanings {
        if meaning.kind == kind {
            return Some(meaning);
        }
    }
    None
}

/// The meaning of the kind of this name; `None` only where no kind has it.
pub fn meaning_of(kind: &str) -> Option<&'static Meaning>
    ensures { IfSome result (λ meaning. meaning.now.kind.now ≡ kind.now) }
{
    find(&MEANINGS, kind)
}
