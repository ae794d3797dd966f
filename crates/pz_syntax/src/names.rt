ghost use Rattle.std.specs.Prelude.{◌≡◌, [], IfOk};

use crate::Pos;
use arrayvec::ArrayString;
use pz_items::Shared;
use std::alloc::{AllocError, Global};
use std::fmt;
use std::marker::Model;

/// A name of the model: an identifier. Contracts see the list of its bytes.
#[derive(Drop)]
pub struct Name {
    spelling: Spelling,
}

/// How a name is spelled. A short one lies in the value itself, which is no larger for that, and takes no
/// memory of its own; a long one is shared with its copies.
#[derive(Drop)]
enum Spelling {
    Short(ArrayString<8>),
    Long(Shared<String>),
}

impl Model for Name {
    ghost use Rattle.std.specs.Prelude.{List, ℕ};
    ghost use Rattle.pz_syntax.specs.Spelling.{spelled};

    ghost Value = { List ℕ };

    ghost view = { λ n. spelled n.spelling };
}

impl Name {
    /// The name that is spelled so. The only error is want of memory.
    pub fn new(alloc: Global, text: &str) -> Result<Name, AllocError>
        ensures { IfOk result (λ name. name ≡ text.now) }
    {
        let spelling = match ArrayString::from(text) {
            Ok(short) => Spelling::Short(short),
            Err(_) => Spelling::Long(Shared::new(alloc, String::from_str(alloc, text)?)?),
        };
        Ok(Name { spelling })
    }

    /// The name without a letter, as the path of the system. Takes no memory.
    pub fn empty() -> Name
        ensures { result ≡ [] }
    {
        let spelling = Spelling::Short(ArrayString::new());
        Name { spelling }
    }

    /// How the name is spelled.
    pub fn as_str(&self) -> &str
        ensures { result.now ≡ self.now }
    {
        match &self.spelling {
            Spelling::Short(text) => text.as_str(),
            Spelling::Long(text) => text.get().as_str(),
        }
    }

    /// An equal name. Takes constant time and no memory. The only error is that a long name has as many
    /// owners as can be counted.
    pub fn copy(&self) -> Result<Name, AllocError>
        ensures { IfOk result (λ copy. copy ≡ self.now) }
    {
        let spelling = match &self.spelling {
            Spelling::Short(text) => Spelling::Short(*text),
            Spelling::Long(text) => Spelling::Long(text.copy()?),
        };
        Ok(Name { spelling })
    }
}

impl fmt::Debug for Name {
    fn fmt<W: fmt::Write>(&self, f: &mut fmt::Formatter<W>) -> fmt::Result {
        fmt::Debug::fmt(self.as_str(), f)
    }
}

/// A name where it stands in the text of the model.
#[derive(Drop)]
pub struct Id {
    pub name: Name,
    /// The place of its token.
    pub pos: Pos,
}

impl Id {
    /// An equal name at the same place. The only error is want of memory.
    pub fn copy(&self) -> Result<Id, AllocError>
        ensures { IfOk result (λ copy. copy ≡ self.now) }
    {
        Ok(Id {
            name: self.name.copy()?,
            pos: self.pos,
        })
    }
}
