//! Timers, and what is told of them.

use dk_base::number::Pid;

/// How a timer was armed (timer_settime(3C)): the clock then, how long after it the first moment is, which isn't 0, and how long after
/// each moment the next one is. There is one moment where `interval` is 0.
#[derive(Clone, Copy)]
pub struct Arming {
    pub clock: u64,
    pub first: u64,
    pub interval: u64,
}

/// A timer (timer_create(3C)). Its id, from 0 to 31, is its process's own, and is free again when it ends. Its number is used once in a
/// run. A timer that fired once and has no interval keeps its arming.
#[derive(Clone, Copy)]
pub struct Timer {
    pub process: Pid,
    pub id: u32,
    pub port: u32,
    pub user: u64,
    pub number: u32,
    pub arming: Option<Arming>,
}

/// By what the events of a timer are found: its port, and its number.
#[derive(Clone, Copy, Debug, PartialEq, Eq)]
pub struct Tag {
    pub port: u32,
    pub number: u32,
}

/// A timer with moments that the clock has reached, and how many these are.
#[derive(Clone, Copy, Debug, PartialEq, Eq)]
pub struct Due {
    pub tag: Tag,
    pub id: u32,
    pub count: u32,
    pub user: u64,
}
