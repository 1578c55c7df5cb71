// Each record's depth and parent, by one pass over the record table.
#![tactic(auto)]

ghost use Rattle.std.specs.Prelude.{◌≡◌, ◌+◌, ◌*◌, ◌≤◌, ◌<◌, length};
ghost use Rattle.format.specs.Rows.{record_width};
ghost use Rattle.format.specs.Tree.{nodes};
ghost use Rattle.rite_parents.specs.Nodes.{rlens_in, nodes_in};
ghost use Rattle.rite_parents.specs.Pass.{pop_to, visit, visit_of, reaches, state, step_of, steps};

use format::{DESKTOP_RECORDS, NO_PARENT, RECORD_WIDTH};

// The word of a record's row that says its rlen.
const RLEN: usize = 3;

// The word that says its depth.
const DEPTH: usize = 19;

// The word that says its parent.
const PARENT: usize = 20;

// The most records of a file, and how many need small tables alone.
const MOST: usize = DESKTOP_RECORDS as usize;

const FEW: usize = 64;

// A record that is open: which it is, and how many of its children are left.
#[derive(Clone, Copy)]
struct Open {
    rec: u32,
    left: u32,
}

// How many records stay open when those on top that have no child left are closed.
#[tactic(auto, unfolding(crate::specs::Pass::pop_to))]
fn popped(stack: &[Open], height: usize) -> usize
    requires { height ≤ length stack.now }
    ensures { (result ≡ pop_to stack.now height) × (result ≤ height) }
{
    for k in (0..height).rev() {
        if stack[k].left != 0 {
            return k + 1;
        }
    }
    0
}

// The open record on top, which has one child fewer left then.
fn next_parent(stack: &mut [Open], top: usize) -> u32
    requires { top < length stack.old }
    ensures { visit result stack.new ≡ visit_of stack.old top }
{
    if top == 0 {
        return NO_PARENT;
    }
    let k = top - 1;
    stack[k].left = stack[k].left.saturating_sub(1);
    stack[k].rec
}

// Whether the walk reaches record i.
fn reached(i: usize, top: usize) -> bool
    ensures { result ≡ reaches i top }
{
    i == 0 || 0 < top
}

// Writes record i's depth and parent, opens it where it is reached, and answers how many are open.
#[tactic(auto, unfolding(crate::specs::Pass::step_of))]
fn link_record(records: &mut [u32], stack: &mut [Open], i: usize, height: usize) -> usize
    requires { (i * record_width + record_width ≤ length records.old) × (i < length stack.old) × (i < 1024) × (height ≤ i) }
    ensures { (state records.new stack.new result ≡ step_of i (state records.old stack.old height)) × (result ≤ i + 1) }
{
    let row = i * RECORD_WIDTH;
    let rlen = records[row + RLEN];
    let top = popped(stack, height);
    let parent = next_parent(stack, top);
    records[row + DEPTH] = top as u32;
    records[row + PARENT] = parent;
    if !reached(i, top) {
        return 0;
    }
    stack[top] = Open {
        rec: i as u32,
        left: rlen,
    };
    top + 1
}

// Writes the depth and parent of n records, of which up to N may be open: an array with a height beside it, as a load takes no heap.
fn link_within<const N: usize>(records: &mut [u32], n: usize)
    requires { (n * record_width ≤ length records.old) × (n ≤ N) × (N ≤ 1024) }
    ensures { records.new ≡ nodes_in records.old 0 (nodes (rlens_in records.old 0 n)) }
{
    let mut stack = [Open { rec: 0, left: 0 }; N];
    let mut height = 0;
    for i in 0..n {
        height = link_record(records, &mut stack, i, height);
    }
}

// Writes the depth and parent of n records into their rows.
pub fn link_parents(records: &mut [u32], n: usize)
    requires { (n * record_width ≤ length records.old) × (n ≤ 1024) }
    ensures { records.new ≡ nodes_in records.old 0 (nodes (rlens_in records.old 0 n)) }
{
    if n <= FEW {
        link_within::<FEW>(records, n);
    } else {
        link_within::<MOST>(records, n);
    }
}
