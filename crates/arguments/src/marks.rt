//! `Marks`: one to six sets of addresses (`MAX_MARKS`) that a picture marks.

ghost use Rattle.std.specs.Prelude.{◌≡◌, map, string_bytes, IfSome, IfNone};
ghost use Rattle.arguments.specs.Options.{IsMarks};
ghost use Rattle.arguments.specs.declared.marks.Marks.{Marks};

use risk_parts::{AddrSet, parse_set};

/// How many sets of addresses a picture marks at most.
pub const MAX_MARKS: usize = 6;

/// The sets of addresses whose peers a picture marks.
#[derive(Clone, Copy)]
pub struct Marks {
    /// The sets, at least one, in the order of the arguments, and after them `None`.
    pub sets: [Option<AddrSet>; MAX_MARKS],
}

/// Reads the texts of one to six sets.
pub(crate) fn read_marks(words: &[String]) -> Option<Marks>
    ensures found { IfSome result (λ marks. IsMarks (map string_bytes words.now) marks) }
    ensures none { IfNone result ((marks : Marks) → ¬ IsMarks (map string_bytes words.now) marks) }
    ensures limit { MAX_MARKS ≡ 6 }
{
    if words.is_empty() {
        return None;
    }
    if words.len() > MAX_MARKS {
        return None;
    }
    let mut sets = [None; MAX_MARKS];
    for i in 0..words.len() {
        let Some(set) = parse_set(words[i].as_bytes()) else {
            return None;
        };
        sets[i] = Some(set);
    }
    Some(Marks { sets })
}
