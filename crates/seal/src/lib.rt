// The link of an advance, and the store after its seal, built in the work area.
#![tactic(auto, using(layers::proofs::Header::header_room))]

ghost use Rattle.std.specs.Prelude.{◌≡◌, cond, ◌++◌, [], ◌+◌, ◌*◌, ◌≤◌, ◌<◌, eqb, length, drop};
ghost use Rattle.layout.specs.Layout.{ends_limit, records_offset};
ghost use Rattle.model.specs.Layers.{record_count};
ghost use Rattle.model.specs.Advance as advance;
ghost use Rattle.model.specs.Refusals.{store_size};
ghost use Rattle.image.specs.Image.{bytes_of, overlay};
ghost use Rattle.image.specs.Lent.{store_of, generation_of, IsStore, Installed};
ghost use Rattle.seal.specs.Sealed.{installed_anchor, header_words, with_layer, topped_up, begun_on, compacted, Sealed};

use layers::{LentGeneration, LentStore};
use model::bal_prefetch::BalSkip;
use model::delta_snapshot::CompactionReport;
use model::read_hub::Lineage;
use model::storage_memo::{B256, ReadAnchor};
use order::Records;

// The largest number of a block: it has no child.
const LAST_NUMBER: u64 = 0xffff_ffff_ffff_ffff;

// How the installed anchor's hash stands to the hash that the child names as its parent's.
fn classify_hash(generation: LentGeneration, parent_hash: B256) -> Lineage
    ensures { result ≡ advance.classify_hash (generation_of generation.entry.bytes.now).anchor.hash parent_hash }
{
    let Some(hash) = header::installed_anchor(generation).hash else {
        return Lineage::ParentHashUnknown;
    };
    if hash != parent_hash {
        return Lineage::ParentHashMismatch;
    }
    Lineage::Linked
}

// How a child stands to the installed anchor (`classify_link`), the first that applies.
pub fn classify_link(store: LentStore, child: ReadAnchor, parent_hash: B256) -> Lineage
    ensures { result ≡ advance.classify_link (installed_anchor (store_of store.entry.bytes.now)) child parent_hash }
{
    if !store.is_installed() {
        return Lineage::NoParent;
    }
    let generation = LentGeneration { bytes: store.bytes };
    let number = generation.installed_number();
    if number == LAST_NUMBER {
        return Lineage::NotConsecutive;
    }
    if child.number != number + 1 {
        return Lineage::NotConsecutive;
    }
    classify_hash(generation, parent_hash)
}

// The skip of a number, also of one above 3, which `TryFrom` refuses.
pub fn skip_of(k: u64) -> BalSkip
    ensures { result ≡ advance.skip_of k }
{
    BalSkip::try_from(k).unwrap_or(BalSkip::Decode)
}

// Whether an advance carries: linked, and its list read.
pub fn carries(l: Lineage, k: BalSkip) -> bool
    ensures { result ≡ advance.carries l k }
{
    l == Lineage::Linked && k == BalSkip::Decoded
}

// How many layers of the base stay under the sealed top: none if the base is void.
fn kept_layers(generation: LentGeneration) -> usize
    ensures { result ≡ length (cond (advance.is_void (generation_of generation.entry.bytes.now).base) [] (generation_of generation.entry.bytes.now).base) }
{
    let n = generation.layers();
    if n != 1 {
        return n;
    }
    if generation.top_start() == 0 {
        return 0;
    }
    1
}

// Writes the header of a new generation that has no layer yet, with the store's config.
fn write_header(s: &[u8], work: &mut [u8], child: ReadAnchor)
    requires { IsStore s.now × (records_offset ≤ length work.old) }
    ensures { work.new ≡ bytes_of (header_words (store_of s.now).config child 0 0 []) ++ drop records_offset work.old }
{
    words::clear(work, 0, layout::RECORDS_OFFSET);
    words::place(work, 0, &s[0..layout::INSTALLED_OFFSET]);
    header::write_anchor(work, child);
}

// Writes that layer k is the highest, and that there are n records up to it.
fn add_layer(work: &mut [u8], k: usize, n: usize)
    requires { (k < ends_limit) × (records_offset ≤ length work.old) }
    ensures { work.new ≡ with_layer k n work.old }
{
    words::write_u64(work, layout::DEPTH_OFFSET, k as u64);
    words::write_u64(work, layout::RECORDS_COUNT_OFFSET, n as u64);
    words::write_u64(work, layout::ENDS_OFFSET + 8 * k, n as u64);
}

// The start of a cold advance: the store in the work area has a generation at the child over a void base.
pub fn begin_cold(store: LentStore, work: &mut [u8], child: ReadAnchor)
    requires { store_size (store_of store.bytes.now).config.capacity ≤ length work.old }
    ensures { work.new ≡ overlay (begun_on (store_of store.entry.bytes.now).config child advance.void_base) work.old }
{
    let capacity = words::read_u64(store.bytes, layout::CAPACITY_OFFSET) as usize;
    write_header(store.bytes, work, child);
    words::clear(work, layout::RECORDS_OFFSET, layout::RECORD_SIZE * capacity);
}

// The seal without a fold: the layers stay, and the top becomes one.
fn seal_layers(s: &[u8], work: &mut [u8], child: ReadAnchor)
    requires { Installed s.now × (length (generation_of s.now).base ≤ 255) × (store_size (store_of s.now).config.capacity ≤ length work.old) }
    ensures { work.new ≡ overlay (begun_on (store_of s.now).config child (advance.seal (generation_of s.now).top (generation_of s.now).base)) work.old }
{
    let capacity = words::read_u64(s, layout::CAPACITY_OFFSET) as usize;
    let n = words::read_u64(s, layout::RECORDS_COUNT_OFFSET) as usize;
    let k = kept_layers(LentGeneration { bytes: s });
    write_header(s, work, child);
    words::place(
        work,
        layout::ENDS_OFFSET,
        &s[layout::ENDS_OFFSET..layout::ENDS_OFFSET + 8 * k],
    );
    add_layer(work, k, n);
    words::place(
        work,
        layout::RECORDS_OFFSET,
        &s[layout::RECORDS_OFFSET..layout::RECORDS_OFFSET + layout::RECORD_SIZE * capacity],
    );
}

// Writes the ends of a folded layer of `left` records, unless it is empty, and of the sealed top over it.
fn add_layers(work: &mut [u8], left: usize, total: usize)
    requires { records_offset ≤ length work.old }
    ensures { work.new ≡ cond (eqb left 0) (with_layer 0 total work.old) (with_layer 1 total (with_layer 0 left work.old)) }
{
    if left == 0 {
        add_layer(work, 0, total);
        return;
    }
    add_layer(work, 0, left);
    add_layer(work, 1, total);
}

// Copies the top's records behind the `left` records that stand in the work area, and sets the rest of its record area to 0.
fn place_top(s: &[u8], work: &mut [u8], left: usize)
    requires { Installed s.now × (left ≤ record_count (generation_of s.now).base) × (store_size (store_of s.now).config.capacity ≤ length work.old) }
    ensures { work.new ≡ topped_up left (store_of s.now).config.capacity (generation_of s.now).top work.old }
{
    let generation = LentGeneration { bytes: s };
    let capacity = words::read_u64(s, layout::CAPACITY_OFFSET) as usize;
    let start = layout::RECORDS_OFFSET + layout::RECORD_SIZE * generation.top_start();
    let n = generation.top_count();
    let at = layout::RECORDS_OFFSET + layout::RECORD_SIZE * left;
    words::place(work, at, &s[start..start + layout::RECORD_SIZE * n]);
    words::clear(
        work,
        at + layout::RECORD_SIZE * n,
        layout::RECORD_SIZE * (capacity - (left + n)),
    );
}

// The seal over a fold: the base becomes one layer, folded at the installed number, and the top a layer over it.
fn seal_folded(s: &[u8], work: &mut [u8], child: ReadAnchor) -> CompactionReport
    requires { Installed s.now × (store_size (store_of s.now).config.capacity ≤ length work.old) }
    ensures { Sealed result work.new work.old (store_of s.now).config child (generation_of s.now).top (advance.compact (store_of s.now).config.retention (generation_of s.now).anchor.number (generation_of s.now).base) }
{
    let generation = LentGeneration { bytes: s };
    let number = generation.installed_number();
    let base = Records {
        bytes: &s[layout::RECORDS_OFFSET..],
        count: generation.top_start(),
    };
    write_header(s, work, child);
    let folded = fold::compact(
        base,
        generation.retention(),
        number,
        &mut work[layout::RECORDS_OFFSET..],
    );
    let left = folded.left;
    place_top(s, work, left);
    add_layers(work, left, left + generation.top_count());
    CompactionReport {
        merged: generation.layers(),
        left,
        dropped: folded.dropped,
    }
}

// The start of a carry: the store in the work area has a generation at the child over the parent, whose base is folded if it is due (`compact_base`) and whose top is sealed (`seal`).
pub fn begin_carried(
    generation: LentGeneration,
    work: &mut [u8],
    child: ReadAnchor,
) -> CompactionReport
    requires { store_size (store_of generation.bytes.now).config.capacity ≤ length work.old }
    ensures { Sealed result work.new work.old (store_of generation.entry.bytes.now).config child (generation_of generation.entry.bytes.now).top (compacted (store_of generation.entry.bytes.now).config (generation_of generation.entry.bytes.now)) }
{
    let limit = words::read_u64(generation.bytes, layout::MAX_DEPTH_OFFSET) as usize;
    if limit < generation.layers() {
        return seal_folded(generation.bytes, work, child);
    }
    seal_layers(generation.bytes, work, child);
    CompactionReport {
        merged: 0,
        left: 0,
        dropped: 0,
    }
}
