// The header's first words: what an open sets, the installed mark and the anchor.
#![tactic(auto)]

ghost use Rattle.std.specs.Prelude.{◌≡◌, ◌∷◌, [], ◌+◌, ◌-◌, ◌*◌, ◌≤◌, max, length};
ghost use Rattle.layout.specs.Layout.{depth_offset, installed_offset, magic};
ghost use Rattle.model.specs.Slots.{anchor_eqb};
ghost use Rattle.model.specs.Refusals.{store_size};
ghost use Rattle.words.specs.Parts.{placed};
ghost use Rattle.image.specs.Image.{bytes_of, hash_words, overlay};
ghost use Rattle.image.specs.Lent.{store_of, generation_of, IsStore};
ghost use Rattle.header.specs.Header.{anchored_refusal, config_of, empty, begun};

use layers::{LentGeneration, LentStore};
use model::delta_snapshot::Retention;
use model::refusal::Refusal;
use model::storage_memo::ReadAnchor;

// The bytes between what the open sets and the records.
const AFTER_CONFIG: usize = layout::RECORDS_OFFSET - layout::INSTALLED_OFFSET;

// The installed anchor.
pub fn installed_anchor(generation: LentGeneration) -> ReadAnchor
    ensures { result ≡ (generation_of generation.entry.bytes.now).anchor }
{
    let number = generation.installed_number();
    let b = generation.bytes;
    if words::read_u64(b, layout::HASH_OFFSET) == 0 {
        return ReadAnchor::at(number);
    }
    ReadAnchor::identified(number, entries::read_u256(b, layout::HASH_W0_OFFSET))
}

// Writes the installed mark and the anchor.
pub fn write_anchor(s: &mut [u8], anchor: ReadAnchor)
    requires { depth_offset ≤ length s.old }
    ensures { s.new ≡ placed installed_offset (bytes_of (1 ∷ anchor.number ∷ hash_words anchor.hash)) s.old }
{
    let number = anchor.number;
    let hash = anchor.hash;
    let ws = match hash {
        None => [1, number, 0, 0, 0, 0, 0],
        Some(h) => [1, number, 1, h.w0, h.w1, h.w2, h.w3],
    };
    image::write_words(s, layout::INSTALLED_OFFSET, ws);
}

// Writes what an open sets.
fn write_config(s: &mut [u8], capacity: u64, max_depth: u64, bounded: u64, idle: u64)
    requires { installed_offset ≤ length s.old }
    ensures { s.new ≡ placed 0 (bytes_of (magic ∷ capacity ∷ max_depth ∷ bounded ∷ idle ∷ [])) s.old }
{
    let ws = [layout::MAGIC, capacity, max_depth, bounded, idle];
    image::write_words(s, 0, ws);
}

// The depth limit of an open: 0 is taken as 1.
fn depth_limit(max_depth: u64) -> u64
    ensures { result ≡ max 1 max_depth }
{
    if max_depth == 0 { 1 } else { max_depth }
}

// Makes the bytes a store with nothing installed.
pub fn start(s: &mut [u8], capacity: u64, max_depth: u64, retention: Retention)
    requires { (capacity ≤ 4096) × (store_size capacity ≤ length s.old) }
    ensures { s.new ≡ overlay (empty (config_of capacity max_depth retention)) s.old }
{
    let n = capacity as usize;
    words::clear(s, 0, layout::RECORDS_OFFSET + layout::RECORD_SIZE * n);
    let depth = depth_limit(max_depth);
    match retention {
        Retention::Unbounded => write_config(s, capacity, depth, 0, 0),
        Retention::IdleBlocks(idle) => write_config(s, capacity, depth, 1, idle),
    }
}

// Puts a fresh generation at an anchor in the place of what is installed.
pub fn begin(s: &mut [u8], anchor: ReadAnchor)
    requires { IsStore s.old }
    ensures { s.new ≡ overlay (begun (store_of s.old).config anchor) s.old }
{
    let n = words::read_u64(s, layout::CAPACITY_OFFSET) as usize;
    words::clear(
        s,
        layout::INSTALLED_OFFSET,
        AFTER_CONFIG + layout::RECORD_SIZE * n,
    );
    write_anchor(s, anchor);
}

// Whether two anchors are equal.
fn same(a: ReadAnchor, b: ReadAnchor) -> bool
    ensures { result ≡ anchor_eqb a b }
{
    a == b
}

// The refusal of a call at an anchor: nothing is installed, or another anchor.
pub fn guard(store: LentStore, anchor: ReadAnchor) -> Result<(), Refusal>
    ensures { result ≡ anchored_refusal (store_of store.entry.bytes.now).installed anchor }
{
    if !store.is_installed() {
        return Err(Refusal::NothingInstalled);
    }
    let generation = LentGeneration { bytes: store.bytes };
    if !same(installed_anchor(generation), anchor) {
        return Err(Refusal::AnotherAnchor);
    }
    Ok(())
}
