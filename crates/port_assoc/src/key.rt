//! What maps find associations and objects by.
ghost use Rattle.std.specs.Prelude.{◌≡◌};
ghost use Rattle.port_assoc.specs.Keys.{association_key, key_of, object_key, row_at};

use dk_base::number::{Fd, Pid};
use dk_base::object::Obj;
use spec_records::association::AssocKey;

/// By what an association is known.
#[derive(Clone, Copy, PartialEq, Eq, Hash, Drop)]
pub struct Key {
    pub port: u32,
    pub process: u32,
    pub fd: u32,
}

pub fn key_of(key: AssocKey) -> Key
    ensures { result ≡ key_of key }
{
    Key {
        port: key.port,
        process: key.process.0,
        fd: key.fd.0,
    }
}

pub fn association_key(key: Key) -> AssocKey
    ensures { result ≡ association_key key }
{
    AssocKey {
        port: key.port,
        process: Pid(key.process),
        fd: Fd(key.fd),
    }
}

/// A descriptor of a process, by which its associations are counted.
#[derive(Clone, Copy, PartialEq, Eq, Hash, Drop)]
pub struct Row {
    pub process: u32,
    pub fd: u32,
}

pub fn row_at(process: Pid, fd: Fd) -> Row
    ensures { result ≡ row_at process.0 fd }
{
    Row {
        process: process.0,
        fd: fd.0,
    }
}

/// An object, by which those that watch it are found.
#[derive(Clone, Copy, PartialEq, Eq, Hash, Drop)]
pub enum ObjectKey {
    Door(u32),
    Port(u32),
    PipeIn(u32),
    PipeOut(u32),
}

pub fn object_key(object: Obj) -> ObjectKey
    ensures { result ≡ object_key object }
{
    match object {
        Obj::Door(d) => ObjectKey::Door(d),
        Obj::Port(p) => ObjectKey::Port(p),
        Obj::PipeIn(p) => ObjectKey::PipeIn(p),
        Obj::PipeOut(p) => ObjectKey::PipeOut(p),
    }
}
