ghost use Rattle.std.specs.Prelude.{◌≡◌, ℕ, ◌+◌, ◌*◌, ◌/◌, ◌<◌, ◌≤◌, ◌^◌, ◌||◌, false, IfOk, length, slice_set};
ghost use Rattle.std.specs.Int.{IsPowerOfTwo};
ghost use Rattle.ct_queue.specs.Marks.{IsFirstWithin, IsTree, marks_of, is_marked};

use ct_base::NoMemory;
use std::alloc::Global;
use std::marker::Model;

/// Marks on places, which are counted from 0, with a search for the least place that is marked.
///
/// Contracts see the marks by place. Each call but `new` takes no
/// memory, and costs at most a logarithm of the number of places.
///
/// It is a binary tree, stored like a heap: node 1 is the root, the nodes
/// below node n are 2n and 2n + 1, and the second half of the nodes are
/// the places in order. A node above others is marked if one of them is.
#[derive(Drop)]
pub struct Marks {
    nodes: Vec<bool>,
}

impl Model for Marks {
    ghost use Rattle.std.specs.Prelude.{Bool, List};
    ghost use Rattle.ct_queue.specs.Marks.{IsTree, marks_of};

    ghost Value = { List Bool };

    ghost view = { λ m. marks_of m.nodes.items };

    ghost invariant = { λ m. IsTree m.nodes.items };
}

impl Marks {
    /// Makes room for at least this many places, none of them marked.
    pub fn new(alloc: Global, places: usize) -> Result<Marks, NoMemory>
        requires few { places < 2 ^ 32 }
        ensures room { IfOk result (λ marks. places ≤ length marks) }
        ensures none { IfOk result (λ marks. (place : ℕ) → is_marked marks place ≡ false) }
    {
        let width = places.next_power_of_two();
        Ok(Marks {
            nodes: vec![in alloc; false; 2 * width]?,
        })
    }

    /// Marks a place, or removes its mark.
    pub fn set(&mut self, place: usize, mark: bool)
        requires { place < length self.old }
        ensures { self.new ≡ slice_set self.old place mark }
    {
        let mut node = self.nodes.len() / 2 + place;
        self.nodes[node] = mark;
        while node > 1 {
            node /= 2;
            let below = is_marked_below(self.nodes.as_slice(), node);
            if self.nodes[node] == below {
                return;
            }
            self.nodes[node] = below;
        }
    }

    /// Finds the least marked place from this one on.
    pub fn first_from(&self, from: usize) -> Option<usize>
        ensures { IsFirstWithin self.now from 0 (length self.now) result }
    {
        least(self.nodes.as_slice(), 1, 0, self.nodes.len() / 2, from)
    }
}

/// Returns whether one of the two nodes right below a node is marked.
fn is_marked_below(nodes: &[bool], node: usize) -> bool
    requires { 2 * node + 1 < length nodes.now }
    ensures { result ≡ (is_marked nodes.now (2 * node) || is_marked nodes.now (2 * node + 1)) }
{
    nodes[2 * node] || nodes[2 * node + 1]
}

/// Finds the least marked place from `from` on, among the
/// places below a node: `span` places from `low` on.
fn least(nodes: &[bool], node: usize, low: usize, span: usize, from: usize) -> Option<usize>
    requires tree { IsTree nodes.now }
    requires inside { 0 < node }
    requires span { IsPowerOfTwo span }
    requires below { node * span ≡ length nodes.now / 2 + low }
    requires within { low + span ≤ length nodes.now / 2 }
    ensures { IsFirstWithin (marks_of nodes.now) from low (low + span) result }
{
    if low + span <= from {
        return None;
    }
    if !nodes[node] {
        return None;
    }
    if span == 1 {
        return Some(low);
    }
    let half = span / 2;
    match least(nodes, 2 * node, low, half, from) {
        Some(place) => Some(place),
        None => least(nodes, 2 * node + 1, low + half, half, from),
    }
}
