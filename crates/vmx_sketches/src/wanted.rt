//! The fates that a case wants for the copies of its plan.
ghost use Rattle.std.specs.Prelude.{◌≡◌};
ghost use Rattle.vmx_model.specs.declared.journal.Fate.TheVariants.{Up, Filtered, NoBuffer};

use vmx_copies::FrameCopy;
use vmx_filters::Rule;
use vmx_io::List;
use vmx_model::Fate;

/// The frame handed up of this place of queue 0 of activation 0.
pub fn up(place: u64) -> Fate
    ensures value { result ≡ Up 0 0 place }
{
    Fate::Up {
        activation: 0,
        queue: 0,
        place,
    }
}

/// The frame handed up first of a queue of an activation.
pub fn up_on(activation: u32, queue: u32) -> Fate
    ensures value { result ≡ Up activation queue 0 }
{
    Fate::Up {
        activation,
        queue,
        place: 0,
    }
}

/// A frame that this rule refused.
pub fn filtered(rule: Rule) -> Fate
    ensures value { result ≡ Filtered rule }
{
    Fate::Filtered { rule }
}

/// A descriptor of ring 1 or 2 of the first queue was missed at this position, by this look.
pub fn missed(ring: u32, position: u64, look: u64) -> Fate
    ensures value { result ≡ NoBuffer 0 0 ring position look }
{
    Fate::NoBuffer {
        activation: 0,
        queue: 0,
        ring,
        position,
        look,
    }
}

/// The fate so many places, or looks, later.
fn later(fate: Fate, by: u64) -> Fate {
    match fate {
        Fate::Up {
            activation,
            queue,
            place,
        } => Fate::Up {
            activation,
            queue,
            place: place.saturating_add(by),
        },
        Fate::NoBuffer {
            activation,
            queue,
            ring,
            position,
            look,
        } => Fate::NoBuffer {
            activation,
            queue,
            ring,
            position,
            look: look.saturating_add(by),
        },
        _ => fate,
    }
}

/// Whether each copy has one fate, and these are they, so many of each.
pub(crate) fn are(fates: &List<List<Fate>>, wanted: &[(Fate, u64)]) -> bool {
    let mut at = 0;
    for (fate, count) in wanted {
        for k in 0..*count {
            if at >= fates.len() {
                return false;
            }
            let found = fates.at(at);
            if found.len() != 1 || *found.at(0) != later(*fate, k) {
                return false;
            }
            at += 1;
        }
    }
    at == fates.len()
}

/// Whether these rows, in their order, have just these fates.
pub(crate) fn are_rows(rows: &[FrameCopy], fates: &List<List<Fate>>) -> bool {
    if rows.len() != fates.len() {
        return false;
    }
    for index in 0..rows.len() {
        let found = fates.at(index);
        if found.len() != 1 || *found.at(0) != rows[index].fate {
            return false;
        }
    }
    true
}
