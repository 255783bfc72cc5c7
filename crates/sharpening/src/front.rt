// What a search goes by: a key for each node, and the list of the nodes that it met.
ghost use Rattle.std.specs.Prelude.{◌≡◌, ℕ, ◌+◌, ◌≤◌, ◌<◌, [], length, get_or, take, IfSome};
ghost use Rattle.exits.specs.Small.{longest};
ghost use Rattle.sharpening.specs.Sharp.{IsFront, Seen, Same, Picked};

use labels::FAR;
use std::marker::Model;

// In a contract it is the nodes that were taken, how many were met, and how many places nodes have. The
// arrays are lent: arrays of its own, of 201 places (no heap, fixed memory), would want a field beside `met`
// and `taken` for the places that count, which the length of the slices tells.
#[derive(Drop)]
pub struct Front<'a> {
    // FAR for a node that was not met, so that one comparison serves both cases
    keys: &'a mut [u64],
    // the nodes met, those taken before the others
    nodes: &'a mut [u16],
    met: usize,
    taken: usize,
}

impl<'a> Model for Front<'a> {
    ghost Value = { Seen };

    ghost view = { λ f. record { places = length f.keys.now; taken = take f.taken f.nodes.now; met = f.met } };

    ghost invariant = { λ f. IsFront (length f.keys.now) f.keys.now f.nodes.now f.taken f.met };
}

impl<'a> Front<'a> {
    // No node has been met.
    pub fn new(keys: &'a mut [u64], nodes: &'a mut [u16]) -> Front<'a>
        requires { IsFront (length keys.old) keys.old nodes.old 0 0 }
        ensures places { result.places ≡ length keys.old }
        ensures none { result.taken ≡ [] }
    {
        Front {
            keys,
            nodes,
            met: 0,
            taken: 0,
        }
    }

    // The key of x: the least cost of a path through it, by the labels at hand, as far as is known.
    pub fn key(&self, x: usize) -> u64
        requires { x < self.now.places }
    {
        // named first, so that the invariant, which bounds x, is at hand at the index
        let keys = &self.keys;
        keys[x]
    }

    // The nodes that were taken.
    pub fn taken(&self) -> &[u16]
        ensures value { result.now ≡ self.now.taken }
        ensures below { (j : ℕ) → get_or result.now j 0 < self.now.places }
    {
        &self.nodes[..self.taken]
    }

    // The node at a place of the list.
    pub fn node(&self, at: usize) -> usize
        requires { at < self.now.met }
        ensures { result < self.now.places }
    {
        // named first, as above
        let nodes = &self.nodes;
        nodes[at] as usize
    }

    // The place of a node with the least key among those met and not taken: the first, if its key is
    // `floor`, than which none is less. By hand: `min_by_key` over the places takes 1 to 2 in 100 instructions
    // more, an iterator over the nodes 3.
    pub fn pick(&self, floor: u64) -> Option<usize>
        ensures { IfSome result (Picked self.now) }
    {
        let from = self.taken;
        let to = self.met;
        if to <= from {
            return None;
        }
        let mut best = from;
        let mut least = self.keys[self.nodes[from] as usize];
        if least <= floor {
            return Some(from);
        }
        for i in from + 1..to {
            let key = self.keys[self.nodes[i] as usize];
            if key < least {
                best = i;
                least = key;
            }
        }
        Some(best)
    }

    // Takes the node at that place.
    pub fn take(&mut self, at: usize)
        requires { Picked self.old at }
        ensures places { self.new.places ≡ self.old.places }
        ensures one_more { length self.new.taken ≡ length self.old.taken + 1 }
    {
        self.nodes.swap(at, self.taken);
        self.taken += 1;
    }

    // Notes that y has that key, if it had none or a greater one. A node that is met then is listed; if
    // it is to be the next that is taken, it comes first among those that were not.
    pub fn note(&mut self, y: usize, key: u64, is_next: bool)
        requires node { y < self.old.places }
        requires key { key ≤ longest }
        ensures { Same self.old self.new }
    {
        let met = self.met;
        let old = self.keys[y];
        if old <= key {
            return;
        }
        self.keys[y] = key;
        if old != FAR || self.nodes.len() <= met {
            return;
        }
        if is_next {
            let taken = self.taken;
            self.nodes[met] = self.nodes[taken];
            self.nodes[taken] = y as u16;
        } else {
            self.nodes[met] = y as u16;
        }
        self.met = met + 1;
    }
}
