//! The words that have a meaning: `pair IN OUT`, each name of 1 to 255 bytes that begin with no dash.
//!
//! The words are read by hand. The usage text names `replay` and `gen` too; they have no meaning yet.
ghost use Rattle.std.specs.Prelude.{◌≡◌, false, map};
ghost use Rattle.std.specs.String.{string_bytes};
ghost use Rattle.std.specs.Option.{option_map};
ghost use Rattle.vmx_tool.specs.Words.{is_name, pair_of, asks_threads};

/// Whether the words have a meaning and hold the option `--threads`. No command has that option yet.
#[tactic(auto, using(crate::proofs::Threads::no_threads))]
pub fn wants_threads(words: &[String]) -> bool
    ensures meaning { result ≡ asks_threads (map string_bytes words.now) }
    ensures none { result ≡ false }
{
    let _ = words;
    false
}

/// The names IN and OUT of `pair IN OUT`.
#[tactic(auto, unfolding(crate::specs::Words::pair_of))]
pub fn pair_names(words: &[String]) -> Option<(&str, &str)>
    ensures names { option_map (λ x. (x.0.now, x.1.now)) result ≡ pair_of (map string_bytes words.now) }
{
    match words {
        [word, from, to] => {
            let from = from.as_str();
            let to = to.as_str();
            if word.as_str() == "pair" && is_file_name(from) && is_file_name(to) {
                Some((from, to))
            } else {
                None
            }
        }
        _ => None,
    }
}

/// 1 to 255 bytes that begin with no dash.
fn is_file_name(word: &str) -> bool
    ensures name { result ≡ is_name word.now }
{
    match word.as_bytes() {
        [] => false,
        [first, ..] => word.len() <= 255 && *first != b'-',
    }
}
