//! Objects as keys of a map.
ghost use Rattle.std.specs.Prelude.{◌≡◌};
ghost use Rattle.unref_notice.specs.Counting.{key_of, object_of};

use dk_base::object::Obj;

/// An object, by which its count is found.
#[derive(Clone, Copy, PartialEq, Eq, Hash, Drop)]
pub enum Key {
    Door(u32),
    Port(u32),
    PipeIn(u32),
    PipeOut(u32),
}

pub fn key_of(object: Obj) -> Key
    ensures { result ≡ key_of object }
{
    match object {
        Obj::Door(d) => Key::Door(d),
        Obj::Port(p) => Key::Port(p),
        Obj::PipeIn(p) => Key::PipeIn(p),
        Obj::PipeOut(p) => Key::PipeOut(p),
    }
}

/// The object of a key.
pub fn object_of(key: Key) -> Obj
    ensures { result ≡ object_of key }
{
    match key {
        Key::Door(d) => Obj::Door(d),
        Key::Port(p) => Obj::Port(p),
        Key::PipeIn(p) => Obj::PipeIn(p),
        Key::PipeOut(p) => Obj::PipeOut(p),
    }
}
