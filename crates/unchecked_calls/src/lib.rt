// The calls open, install, look, get and put on bytes that are known to be a store.
#![tactic(auto, using(image::proofs::Lent::decoded_some, header::proofs::Guards::past_guard))]

ghost use Rattle.std.specs.Prelude.{◌≡◌, true, ◌≤◌, ◌<◌, length, is_some};
ghost use Rattle.model.specs.Refusals.{store_size};
ghost use Rattle.model.specs.Store as calls;
ghost use Rattle.model.specs.Store.{on_store, at_anchor, on_slot, open_store};
ghost use Rattle.image.specs.Image.{decode, bytes_step};
ghost use Rattle.replies.specs.Replies.{open_reply, install_reply, look_reply, put_reply, alone, Stepped};

use layers::{LentGeneration, LentStore};
use model::delta_snapshot::{Retention, Slot};
use model::refusal::Refusal;
use model::storage_memo::{ReadAnchor, U256};
use replies::{InstallReply, Installed, LookReply, OpenReply, PutReply};

// An open that is not refused.
pub fn open(s: &mut [u8], capacity: u64, max_depth: u64, retention: Retention) -> OpenReply
    requires { (0 < capacity) × (capacity ≤ 4096) × (max_depth ≤ 255) × (store_size capacity ≤ length s.old) }
    ensures { Stepped (open_reply result) s.new (bytes_step s.old (alone (open_store capacity max_depth retention))) }
{
    header::start(s, capacity, max_depth, retention);
    Ok(())
}

// An install (`for_anchor`).
pub fn install(s: &mut [u8], anchor: ReadAnchor) -> InstallReply
    requires { is_some (decode s.old) ≡ true }
    ensures { Stepped (install_reply result) s.new (bytes_step s.old (alone (on_store (calls.install anchor)))) }
{
    if let Ok(()) = header::guard(LentStore { bytes: s }, anchor) {
        return Ok(Installed::Same);
    }
    header::begin(s, anchor);
    Ok(Installed::Fresh)
}

// A look (`snapshot_value`).
pub fn look(s: &[u8], anchor: ReadAnchor, slot: Slot) -> LookReply
    requires { is_some (decode s.now) ≡ true }
    ensures { Stepped (look_reply result) s.now (bytes_step s.now (alone (on_store (at_anchor anchor (on_slot (calls.look slot)))))) }
{
    header::guard(LentStore { bytes: s }, anchor)?;
    let held = LentGeneration { bytes: s }.resolved(slot);
    Ok(held)
}

// A get (`StorageView::get`): a served slot's own use is set to the installed number.
pub fn get(s: &mut [u8], anchor: ReadAnchor, slot: Slot) -> LookReply
    requires { is_some (decode s.old) ≡ true }
    ensures { Stepped (look_reply result) s.new (bytes_step s.old (alone (on_store (at_anchor anchor (on_slot (calls.get slot)))))) }
{
    header::guard(LentStore { bytes: s }, anchor)?;
    let generation = LentGeneration { bytes: s };
    let place = generation.top_place(slot);
    let Some(v) = generation.resolved_at(place, slot) else {
        return Ok(None);
    };
    if !top::has_room(generation, place) {
        return Err(Refusal::OverCapacity);
    }
    top::touch_top(s, place, slot);
    Ok(Some(v))
}

// A put (`settle`): value and use are set, even where the value is the same.
pub fn put(s: &mut [u8], anchor: ReadAnchor, slot: Slot, value: U256) -> PutReply
    requires { is_some (decode s.old) ≡ true }
    ensures { Stepped (put_reply result) s.new (bytes_step s.old (alone (on_store (at_anchor anchor (on_slot (calls.put slot value)))))) }
{
    header::guard(LentStore { bytes: s }, anchor)?;
    let generation = LentGeneration { bytes: s };
    let place = generation.top_place(slot);
    if !top::has_room(generation, place) {
        return Err(Refusal::OverCapacity);
    }
    top::settle_top(s, place, slot, value);
    Ok(())
}
