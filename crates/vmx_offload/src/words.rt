//! The words that have a meaning: `fill IN OUT`, each name of 1 to 255 bytes that begin with no dash.
//!
//! The words are read by hand. The usage text names `segment` too, which has no meaning yet.
ghost use Rattle.std.specs.Prelude.{◌≡◌, map};
ghost use Rattle.std.specs.String.{string_bytes};
ghost use Rattle.std.specs.Option.{option_map};
ghost use Rattle.vmx_offload.specs.Words.{is_name, fill_of};

/// The names IN and OUT of `fill IN OUT`.
#[tactic(auto, unfolding(crate::specs::Words::fill_of))]
pub fn fill_names(words: &[String]) -> Option<(&str, &str)>
    ensures names { option_map (λ x. (x.0.now, x.1.now)) result ≡ fill_of (map string_bytes words.now) }
{
    match words {
        [word, from, to] => {
            let from = from.as_str();
            let to = to.as_str();
            if word.as_str() == "fill" && is_file_name(from) && is_file_name(to) {
                Some((from, to))
            } else {
                None
            }
        }
        _ => None,
    }
}

/// 1 to 255 bytes that begin with no dash.
fn is_file_name(word: &str) -> bool
    ensures name { result ≡ is_name word.now }
{
    match word.as_bytes() {
        [] => false,
        [first, ..] => word.len() <= 255 && *first != b'-',
    }
}
