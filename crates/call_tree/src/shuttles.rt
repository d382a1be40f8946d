//! Which thread serves the call of which: chains of threads, whose two ends know each other.
#![tactic(auto)]

ghost use Rattle.std.specs.Prelude.{◌≡◌, ◌<◌, ◌≤◌, ℕ};
ghost use Rattle.call_tree.specs.Chains.{CanLink, Cut, IsEmpty, Linked, LinksValue, at, other, walk};

use std::marker::Model;

/// Threads 1 to 64, and for each the thread whose call it serves (`up`), the thread that serves its call (`down`), the number of
/// the call that it serves (`rank`) and, at both ends of a chain, the other end (`far`); 0 is none, and in `far` the thread itself.
#[derive(Drop)]
pub struct Shuttles {
    top: u32,
    up: [u32; 65],
    down: [u32; 65],
    rank: [u32; 65],
    far: [u32; 65],
}

impl Model for Shuttles {
    ghost use Rattle.call_tree.specs.Chains.{LinksValue, Sound, at, other};

    ghost Value = { LinksValue };

    ghost view = { λ s. record { top = s.top; up = s.up; down = s.down; rank = s.rank } };

    ghost invariant = { λ s. Sound s.top (at s.up) (at s.down) (at s.rank) (other s.far) };
}

fn at(xs: &[u32; 65], t: u32) -> u32
    ensures { result ≡ at xs.now t }
{
    match xs.get(t as usize) {
        Some(x) => *x,
        None => 0,
    }
}

fn other(far: &[u32; 65], t: u32) -> u32
    ensures { result ≡ other far.now t }
{
    match at(far, t) {
        0 => t,
        x => x,
    }
}

fn walk(next: &[u32; 65], steps: u32, t: u32) -> u32
    ensures { result ≡ walk steps (at next.now) t }
{
    let mut t = t;
    for _step in 0..steps {
        match at(next, t) {
            0 => return t,
            u => t = u,
        }
    }
    t
}

fn zeros() -> [u32; 65]
    ensures { (t : ℕ) → at result t ≡ 0 }
{
    [0; 65]
}

impl Shuttles {
    /// No thread serves another.
    pub fn new() -> Self
        ensures { IsEmpty result }
    {
        Shuttles {
            top: 0,
            up: zeros(),
            down: zeros(),
            rank: zeros(),
            far: zeros(),
        }
    }

    /// The number of the last call.
    pub fn top(&self) -> u32
        ensures { result ≡ self.now.top }
    {
        self.top
    }

    /// Calls up to this number were made.
    pub fn raise(&mut self, top: u32)
        requires { self.old.top ≤ top }
        ensures { self.new ≡ record self.old { top = top } }
    {
        self.top = top;
    }

    /// The thread for which the work of `t` is done in the end. It costs no walk where no thread serves a call of `t`.
    pub fn root_of(&self, t: u32) -> u32
        ensures { result ≡ walk self.now.top (at self.now.up) t }
    {
        let lead = walk(&self.down, self.top, t);
        other(&self.far, lead)
    }

    /// The thread that does the work of `t` in the end. It costs no walk where `t` serves no call.
    pub fn lead_of(&self, t: u32) -> u32
        ensures { result ≡ walk self.now.top (at self.now.down) t }
    {
        if at(&self.up, t) == 0 {
            return other(&self.far, t);
        }
        walk(&self.down, self.top, t)
    }

    /// The token goes down: `u` serves call `c` of `a`.
    pub fn link(&mut self, a: u32, u: u32, c: u32)
        requires { CanLink self.old a u c }
        ensures { Linked self.old self.new a u c }
    {
        let root = other(&self.far, a);
        self.up[u as usize] = a;
        self.down[a as usize] = u;
        self.rank[u as usize] = c;
        self.far[u as usize] = root;
        self.far[root as usize] = u;
    }

    /// The token goes up: `u` serves no call. Where `u` waits in a call of its own, the part below it has `u` as its root.
    pub fn unlink(&mut self, u: u32)
        requires server { 0 < at self.old.up u }
        ensures { Cut self.old self.new u }
    {
        let a = at(&self.up, u);
        let lead = walk(&self.down, self.top, u);
        let root = other(&self.far, lead);
        self.up[u as usize] = 0;
        self.rank[u as usize] = 0;
        self.down[a as usize] = 0;
        self.far[root as usize] = a;
        self.far[a as usize] = root;
        self.far[lead as usize] = u;
        self.far[u as usize] = lead;
    }
}
