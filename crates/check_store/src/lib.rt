// Are these bytes a store? The checks in their order.
#![tactic(auto)]

ghost use Rattle.std.specs.Prelude.{◌≡◌, true, ◌&&◌, is_some, IfSome};
ghost use Rattle.image.specs.Image.{decode};
ghost use Rattle.checking.specs.Checks.{parts_in, rules_in};

use checking::{Counted, SizedBytes};
use model::delta_snapshot::Retention;
use order::Records;

// What is counted, if all checks of an installed generation but the rules across layers are right.
#[tactic(auto, using(crate::proofs::Links::ends_say), unfolding(checking::specs::Checks::parts_right))]
fn counted_right(sized: SizedBytes) -> Option<Counted>
    ensures is_right { is_some result ≡ parts_in sized.entry.bytes.now }
    ensures same { IfSome result (λ c. c.bytes.now ≡ sized.entry.bytes.now) }
{
    if !sized.anchor_right() {
        return None;
    }
    let counted = sized.counts()?;
    if counted.ends_right() && counted.reads_right() && counted.records_right() {
        Some(counted)
    } else {
        None
    }
}

// The rules across layers. The top begins at the end of the base's last layer.
fn rules_right(counted: Counted) -> bool
    requires { parts_in counted.bytes.now ≡ true }
    ensures { result ≡ rules_in counted.entry.bytes.now }
{
    let top = checking::word(counted.bytes, layout::ENDS_OFFSET, counted.depth) as usize;
    let kept = Retention::of_words(
        checking::word(counted.bytes, 0, layout::RETENTION_INDEX),
        checking::word(counted.bytes, 0, layout::IDLE_INDEX),
    );
    let records = Records {
        bytes: &counted.bytes[layout::RECORDS_OFFSET..],
        count: counted.records,
    };
    rules::cross_rules(records, top, kept, counted.number())
}

// An installed generation.
fn installed_right(sized: SizedBytes) -> bool
    ensures { result ≡ (parts_in sized.entry.bytes.now && rules_in sized.entry.bytes.now) }
{
    counted_right(sized).is_some_and(rules_right)
}

// Whether bytes are a store: they begin with the image of the well-formed state that they read as.
#[tactic(auto, using(crate::proofs::Links::config_sized, crate::proofs::Links::is_cut, crate::proofs::Links::is_odd, crate::proofs::Links::is_bare, crate::proofs::Links::is_full))]
pub fn is_store(s: &[u8]) -> bool
    ensures { result ≡ is_some (decode s.now) }
{
    if s.len() < layout::RECORDS_OFFSET || !checking::config_right(s) {
        return false;
    }
    let size = layout::RECORDS_OFFSET
        + layout::RECORD_SIZE * checking::word(s, 0, layout::CAPACITY_INDEX) as usize;
    if s.len() < size {
        false
    } else if checking::word(s, 0, layout::INSTALLED_INDEX) == 0 {
        checking::zero(s, layout::INSTALLED_OFFSET, size)
    } else {
        let sized = SizedBytes { bytes: s };
        installed_right(sized)
    }
}
