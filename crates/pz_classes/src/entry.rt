// What is kept of a class.

ghost use Rattle.pz_classes.specs.devices.Inherited.{AreFew};

use crate::Step;
use crate::front::Front;
use crate::method_index::Methods;

/// A class: what it inherits and has of its own, and the `init` and the methods that it declares.
pub(crate) struct Entry {
    pub(crate) parent: Option<u32>,
    pub(crate) members: Front,
    pub(crate) start: Option<Step>,
    pub(crate) methods: Methods,
    ghost few: { AreFew members },
}

// Written out, so that it is proved once, here, and not in each function that drops one.
impl Drop for Entry {
    fn drop(self) {
        let Entry {
            parent: _,
            members,
            start,
            methods,
        } = self;
        std::mem::drop(members);
        std::mem::drop(start);
        std::mem::drop(methods);
    }
}
