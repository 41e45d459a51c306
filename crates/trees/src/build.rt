// A fresh tree: the blocks of a list of records, written into lent memory one after another, leaves first and root last.
ghost use Rattle.std.specs.Prelude.{◌≡◌, ◌+◌, ◌-◌, ◌*◌, ◌/◌, ◌≤◌, ◌<◌, length, get_or, drop};
ghost use Rattle.codec.specs.Bytes.{bytes_at, with_bytes};
ghost use Rattle.blocks.specs.Geometry.{null_ag_block};
ghost use Rattle.blocks.specs.Tree.{header_len, record_len, keys_len};
ghost use Rattle.blocks.specs.Stamp.{stamped};
ghost use Rattle.walks.specs.Links.{next};
ghost use Rattle.trees.specs.Plan.{sum, shares, start_of, first_of};
ghost use Rattle.trees.specs.Build.{keys_of, leaf_part, leaf_parts, node_part, block_bytes, blocks_of, output};
ghost use Rattle.trees.specs.BuildCall.{keys_under, layout_of, built_bytes, build_outcome};
ghost use Rattle.trees.specs.Inner.BuildSteps.{check_list, room_outcome, plan_then_room};
ghost use Rattle.trees.specs.BuildAnswer.{build_number, build_values, Builds};
ghost use Rattle.trees.specs.declared.build.BuildRefusal.TheVariants as why;
ghost use Rattle.codec.specs.ListRefusal.{list_outcome};
ghost use Rattle.codec.specs.Told.{Tells};
ghost use Rattle.trees.specs.Inner.BuildNeeds.{Given, Under, Planned, Leaves, Children, Node, Nodes, Tree, Laid};
ghost use Rattle.trees.specs.Inner.BuildNeeds.{pointer_bytes, level_children, nodes_above, levels_above};

use crate::keys::put_rmap_keys;
use crate::plan::{plan_levels, share};
use blocks::geometry::{AgBlock, Geometry, NULL_AGBLOCK};
use blocks::kind::{PTR_LEN, TreeKind, header_len};
use blocks::stamp::stamp;
use codec::check::ListRefusal;
use codec::copy::copy;
use codec::endian::put_be32;
use codec::refusal::Told;
use free::order::Order;

// Why build is refused. The number of each case (docs/QUESTIONS.md) is `build_number` of specs/BuildAnswer.antt.
#[derive(Clone, Copy, Debug, PartialEq, Eq)]
pub enum BuildRefusal {
    // the geometry is none: 1
    BadGeometry,
    // the version has no such tree: 3
    NoTree,
    // 19, and 20 or 21
    List(ListRefusal),
    // there would be more than 9 levels: 16
    Levels,
    // not as many block numbers as planned: 17
    Blocks,
    // the output is too short: 18
    Output,
}

impl From<ListRefusal> for BuildRefusal {
    ghost from_gives = { λ e r. r ≡ why.List e };

    fn from(e: ListRefusal) -> BuildRefusal {
        BuildRefusal::List(e)
    }
}

// No question of build has values.
impl From<BuildRefusal> for Told {
    ghost from_gives = { λ r t. Tells t (build_number r) (build_values r) };

    fn from(r: BuildRefusal) -> Told {
        match r {
            BuildRefusal::BadGeometry => Told::plain(1),
            BuildRefusal::NoTree => Told::plain(3),
            BuildRefusal::List(refusal) => Told::from(refusal),
            BuildRefusal::Levels => Told::plain(16),
            BuildRefusal::Blocks => Told::plain(17),
            BuildRefusal::Output => Told::plain(18),
        }
    }
}

// Where a block goes, and the blocks before and after it on its level.
#[derive(Clone, Copy)]
struct Place {
    number: u32,
    left: u32,
    right: u32,
}

// The block after the i-th of a level; all ones where it is the last.
fn after(blocks: &[u32], i: usize) -> u32
    requires { i < length blocks.now }
    ensures { result ≡ next (drop (i + 1) blocks.now) }
{
    blocks.get(i + 1).copied().unwrap_or(NULL_AGBLOCK)
}

// The entries before block i, of entries shared over blocks.
fn start(entries: u64, blocks: u64, i: u64) -> u64
    requires { (0 < blocks) × (i ≤ blocks) }
    ensures { (result ≡ start_of entries blocks i) × (result ≤ entries) }
{
    i * (entries / blocks) + i.min(entries % blocks)
}

// The first record under block i of a level, found by going down the plan.
fn first(records: u64, levels: &[u64], level: usize, i: u64) -> u64
    requires { Planned records levels.now level × (i ≤ get_or levels.now level 0) }
    ensures { (result ≡ first_of records levels.now level i) × (result ≤ records) }
{
    let mut at = i;
    for l in (0..level).rev() {
        at = start(levels[l], levels[l + 1], at);
    }
    start(records, levels[0], at)
}

// The pointers to blocks.
fn put_pointers(blocks: &[u32], b: &mut [u8], at: usize)
    requires { at + length blocks.now * 4 ≤ length b.old }
    ensures { b.new ≡ with_bytes b.old at (pointer_bytes blocks.now) }
{
    for (i, &number) in blocks.iter().enumerate() {
        put_be32(b, at + i * PTR_LEN, number);
    }
}

// What a fresh tree is built from, once 1, 3, 19, 20 or 21, and 16 are asked: the records of its list, and how many blocks each level of its plan has.
#[derive(Clone, Copy)]
struct Source<'a> {
    g: Geometry,
    kind: TreeKind,
    list: &'a [u8],
    levels: &'a [u64],
    ghost given: { Given g kind list.now },
    ghost laid: { Laid g kind list.now levels.now },
}

impl<'a> Source<'a> {
    // The header of a block at its place.
    fn stamp_at(&self, place: Place, level: u16, count: u16, b: &mut [u8])
        requires { header_len self.now.g.version ≤ length b.old }
        ensures { b.new ≡ stamped self.now.g self.now.kind place.number level count place.left place.right b.old }
    {
        stamp(
            self.g,
            self.kind,
            AgBlock(place.number),
            level,
            count,
            AgBlock(place.left),
            AgBlock(place.right),
            b,
        );
    }

    // A leaf with these records.
    fn write_leaf(&self, place: Place, count: u16, records: &[u8], b: &mut [u8])
        requires { (length b.old ≡ self.now.g.blocksize) × (header_len self.now.g.version + length records.now ≤ self.now.g.blocksize) }
        ensures { b.new ≡ block_bytes (layout_of self.now.g self.now.kind) 0 place.number (record { left = place.left; right = place.right })
            (leaf_part count records.now) }
    {
        let head = header_len(self.g.version);
        b.fill(0);
        copy(records, b, head);
        self.stamp_at(place, 0, count, b);
    }

    // The leaves, left to right. The loop is like that of `write_nodes`, but what a block takes is four parameters there and two here: by a closure it would be no
    // plainer. The parts of `out` are cut by hand, since of a slice written through `chunks_exact_mut` the library does not say what it ends as.
    fn write_leaves(&self, blocks: &[u32], out: &mut [u8])
        requires { Leaves self.now.g self.now.kind self.now.list.now blocks.now out.old }
        ensures { out.new ≡ with_bytes out.old 0 (output
            (blocks_of (layout_of self.now.g self.now.kind) 0 null_ag_block blocks.now (leaf_parts (layout_of self.now.g self.now.kind)
            (shares (length self.now.list.now / record_len self.now.kind) (length blocks.now)) self.now.list.now))) }
    {
        let list = self.list;
        let w = self.kind.record_len();
        let size = self.g.blocksize as usize;
        let n = list.len() / w;
        let k = blocks.len();
        let mut from = 0;
        let mut left = NULL_AGBLOCK;
        for (i, &number) in blocks.iter().enumerate() {
            let count = share(n as u64, k as u64, i as u64) as usize;
            let to = from + count * w;
            let right = after(blocks, i);
            let a = i * size;
            let e = a + size;
            let place = Place {
                number,
                left,
                right,
            };
            self.write_leaf(place, count as u16, &list[from..to], &mut out[a..e]);
            from = to;
            left = number;
        }
    }

    // The keys of a child with the records from `from` to `to` under it: in the reverse map low and high, else the first bytes of the first record.
    fn put_keys(&self, from: usize, to: usize, b: &mut [u8], at: usize)
        requires { Under self.now.kind self.now.list.now from to × (at + keys_len self.now.kind ≤ length b.old) }
        ensures { b.new ≡ with_bytes b.old at (keys_under self.now.kind
            (bytes_at self.now.list.now (from * record_len self.now.kind) (to * record_len self.now.kind - from * record_len self.now.kind))) }
    {
        let list = self.list;
        if self.kind.is_overlapping() {
            put_rmap_keys(list, from, to, b, at);
        } else {
            let start = from * self.kind.record_len();
            let end = start + self.kind.keys_len();
            copy(&list[start..end], b, at);
        }
    }

    // The keys of some children of a level, from the `child`-th on.
    fn put_all_keys(&self, level: usize, child: usize, below: &[u32], b: &mut [u8], at: usize)
        requires { Children self.now.kind self.now.list.now self.now.levels.now level child below.now
            × (at + length below.now * keys_len self.now.kind ≤ length b.old) }
        ensures { b.new ≡ with_bytes b.old at (keys_of (keys_under self.now.kind)
            (level_children self.now.kind self.now.list.now self.now.levels.now level child below.now)) }
    {
        let levels = self.levels;
        let n = (self.list.len() / self.kind.record_len()) as u64;
        let long = self.kind.keys_len();
        let mut from = first(n, levels, level, child as u64) as usize;
        for j in 0..below.len() {
            let to = first(n, levels, level, (child + j + 1) as u64) as usize;
            self.put_keys(from, to, b, at + j * long);
            from = to;
        }
    }

    // A node over some children of a level: their keys, their pointers after room for the capacity's keys, and the header.
    fn write_node(&self, place: Place, level: usize, child: usize, below: &[u32], b: &mut [u8])
        requires { Node self.now.g self.now.kind self.now.list.now self.now.levels.now level child below.now b.old }
        ensures { b.new ≡ block_bytes (layout_of self.now.g self.now.kind) (level + 1) place.number (record { left = place.left; right = place.right })
            (node_part (layout_of self.now.g self.now.kind) (level_children self.now.kind self.now.list.now self.now.levels.now level child below.now)) }
    {
        let head = header_len(self.g.version);
        let size = self.g.blocksize as usize;
        let most = (size - head) / self.kind.entry_len();
        let keys = self.kind.keys_len();
        let count = below.len();
        b.fill(0);
        self.put_all_keys(level, child, below, b, head);
        put_pointers(below, b, head + most * keys);
        self.stamp_at(place, (level + 1) as u16, count as u16, b);
    }

    // The nodes above a level, left to right.
    fn write_nodes(&self, level: usize, below: &[u32], blocks: &[u32], out: &mut [u8])
        requires { Nodes self.now.g self.now.kind self.now.list.now self.now.levels.now level below.now blocks.now out.old }
        ensures { out.new ≡ with_bytes out.old 0 (output
            (nodes_above self.now.g self.now.kind self.now.list.now self.now.levels.now level below.now blocks.now)) }
    {
        let size = self.g.blocksize as usize;
        let m = below.len();
        let k = blocks.len();
        let mut child = 0;
        let mut left = NULL_AGBLOCK;
        for (i, &number) in blocks.iter().enumerate() {
            let count = share(m as u64, k as u64, i as u64) as usize;
            let to = child + count;
            let right = after(blocks, i);
            let a = i * size;
            let e = a + size;
            let place = Place {
                number,
                left,
                right,
            };
            self.write_node(place, level, child, &below[child..to], &mut out[a..e]);
            child = to;
            left = number;
        }
    }

    // The levels above the leaves, each after the one below.
    fn write_levels(&self, numbers: &[u32], out: &mut [u8])
        requires { Tree self.now.g self.now.levels.now numbers.now out.old }
        ensures { out.new ≡ with_bytes out.old (get_or self.now.levels.now 0 0 * self.now.g.blocksize)
            (output (levels_above self.now.g self.now.kind self.now.list.now self.now.levels.now numbers.now)) }
    {
        let levels = self.levels;
        let size = self.g.blocksize as usize;
        let mut low = 0;
        let mut base = levels[0] as usize;
        for level in 0..levels.len() - 1 {
            let end = base + levels[level + 1] as usize;
            let a = base * size;
            let e = end * size;
            self.write_nodes(
                level,
                &numbers[low..base],
                &numbers[base..end],
                &mut out[a..e],
            );
            low = base;
            base = end;
        }
    }

    // The tree of a plan: the leaves, then each level.
    fn write_tree(&self, numbers: &[u32], out: &mut [u8])
        requires { Tree self.now.g self.now.levels.now numbers.now out.old }
        ensures { out.new ≡ with_bytes out.old 0 (built_bytes self.now.g self.now.kind self.now.list.now numbers.now) }
    {
        let levels = self.levels;
        let size = self.g.blocksize as usize;
        let leaves = levels[0] as usize;
        let far = leaves * size;
        self.write_leaves(&numbers[0..leaves], &mut out[0..far]);
        self.write_levels(numbers, out);
    }

    // Questions 17 and 18, then the tree of a plan of `total` blocks.
    fn build_levels(
        &self,
        total: u64,
        numbers: &[u32],
        out: &mut [u8],
    ) -> Result<usize, BuildRefusal>
        requires { total ≡ sum self.now.levels.now }
        ensures { Builds (room_outcome self.now.g self.now.kind self.now.list.now numbers.now (length out.old)) result out.old out.new }
    {
        let size = self.g.blocksize as usize;
        let count = numbers.len();
        if total != count as u64 {
            return Err(BuildRefusal::Blocks);
        }
        if out.len() / size < count {
            return Err(BuildRefusal::Output);
        }
        self.write_tree(numbers, out);
        Ok(count * size)
    }
}

// Question 16, then 17 and 18 and the tree.
fn build_planned(
    g: Geometry,
    kind: TreeKind,
    list: &[u8],
    numbers: &[u32],
    out: &mut [u8],
) -> Result<usize, BuildRefusal>
    requires { Given g kind list.now }
    ensures { Builds (plan_then_room g kind list.now numbers.now (length out.old)) result out.old out.new }
{
    let n = list.len() / kind.record_len();
    let plan = plan_levels(g, kind, n as u64).ok_or(BuildRefusal::Levels)?;
    let source = Source {
        g,
        kind,
        list,
        levels: &plan.blocks[..plan.levels],
    };
    source.build_levels(plan.total, numbers, out)
}

// Questions 19, and 20 or 21.
fn check_list(kind: TreeKind, list: &[u8]) -> Result<usize, ListRefusal>
    ensures { list_outcome result ≡ check_list kind list.now }
{
    match kind {
        TreeKind::Rmap => codec::rmap::check_order(list),
        TreeKind::Refcount => codec::refcount::check_order(list),
        TreeKind::ByBlock => free::order::check_order(Order::ByBlock, list),
        TreeKind::BySize => free::order::check_order(Order::BySize, list),
    }
}

// Writes the blocks of a fresh tree of the records of `list` one after another into `out`, leaves first and root last; `numbers` says where in
// the group each of them goes. Questions 1, 3, 19, 20 or 21, then 16 to 18. A refusal writes nothing, and nothing is written past the last block.
pub fn build(
    g: Geometry,
    kind: TreeKind,
    list: &[u8],
    numbers: &[u32],
    out: &mut [u8],
) -> Result<usize, BuildRefusal>
    ensures { Builds (build_outcome g kind list.now numbers.now (length out.old)) result out.old out.new }
{
    if !g.is_ok() {
        return Err(BuildRefusal::BadGeometry);
    }
    if !kind.is_in(g.version) {
        return Err(BuildRefusal::NoTree);
    }
    check_list(kind, list)?;
    build_planned(g, kind, list, numbers, out)
}
