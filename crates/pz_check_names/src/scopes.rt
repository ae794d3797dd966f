// What a class lacks of what its words name.

ghost use Rattle.std.specs.Prelude.{◌≡◌, Bool, not, ◌&&◌};
ghost use Rattle.std.specs.List.{list_any};
ghost use Rattle.std.specs.Option.{is_none};
ghost use Rattle.pz_classes_code.specs.pz_syntax.ClassView.{decl_view};
ghost use Rattle.pz_classes.specs.pz_classes_rules.CallRules as calls;
ghost use Rattle.pz_classes.specs.pz_classes_rules.Kinds as kinds;
ghost use Rattle.pz_classes.specs.pz_classes_rules.Members as members;
ghost use Rattle.pz_classes.specs.pz_classes_rules.Methods as methods;
ghost use Rattle.pz_classes.specs.pz_classes_rules.NameRules as names;
ghost use Rattle.pz_classes.specs.pz_classes_rules.Words.{is_among};
ghost use Rattle.pz_check_names.specs.devices.Scopes.{AreDeclared, IsScope, HasLocals, asked, model_of, decl_of};

use crate::class_scope::ClassScope;
use crate::declared::Declared;
use crate::rules::is_primitive_selector;
use crate::stretch::Stretch;
use pz_classes_code::pz_syntax::{Decl, Name};

pub(crate) fn is_data(decl: &Decl) -> bool
    ensures { result ≡ kinds.is_data (decl_view decl.now) }
{
    matches!(decl, Decl::Data(_))
}

/// Whether a process class has no `init`, of its own or inherited.
pub(crate) fn never_starts(declared: &Declared, scope: &ClassScope) -> bool
    requires { IsScope declared.now scope.now }
    ensures { result ≡ (kinds.is_process (decl_of scope.now) && is_none
        (calls.start (model_of declared.now) scope.now.class.0)) }
{
    match scope.decl {
        Decl::Process(_) => !scope.inherited.has_start(),
        _ => false,
    }
}

/// Whether the name is that of a field of a data class, or of a parameter or variable of a process
/// class.
fn has_shared(declared: &Declared, scope: &ClassScope, name: &Name) -> bool
    requires { IsScope declared.now scope.now }
    ensures { result ≡ is_among (names.shared (model_of declared.now) scope.now.class.0
        (decl_of scope.now)) name.now }
{
    match scope.decl {
        Decl::Data(_) => scope.inherited.has_field(name),
        Decl::Process(_) => scope.inherited.has_variable(name),
        Decl::Cluster(_) => false,
        Decl::System(_) => false,
    }
}

/// Whether a name is neither local nor shared by all bodies of the class.
pub(crate) fn lacks_variable(
    declared: &Declared,
    scope: &ClassScope,
    stretch: &Stretch,
    name: &Name,
) -> bool
    requires scoped { IsScope declared.now scope.now }
    requires local { HasLocals stretch.now }
    ensures { result ≡ (not (is_among stretch.now.part.now.locals name.now) && not
        (is_among (names.shared (model_of declared.now) scope.now.class.0 (decl_of scope.now))
        name.now)) }
{
    !stretch.has_local(name) && !has_shared(declared, scope, name)
}

/// Whether neither the class nor an ancestor has a method with this name and these counts.
pub(crate) fn lacks_method(
    declared: &Declared,
    scope: &ClassScope,
    name: &Name,
    inputs: usize,
    outputs: usize,
) -> bool
    requires { IsScope declared.now scope.now }
    ensures { result ≡ is_none (methods.process_method
        (model_of declared.now) scope.now.class.0 name.now inputs outputs) }
{
    !scope.inherited.has_method(name, inputs, outputs)
}

/// Whether neither primitive values nor a data class of the model have this selector with so many
/// arguments.
pub(crate) fn lacks_selector(declared: &Declared, name: &Name, count: usize) -> bool
    requires { AreDeclared declared.now }
    ensures { result ≡ (not (calls.is_primitive_selector name.now count) && not
        (calls.is_declared (model_of declared.now) (asked name.now count))) }
{
    !is_primitive_selector(name, count) && !declared.selectors.has(name, count)
}

/// Whether neither the class nor an ancestor has this port.
pub(crate) fn lacks_port(declared: &Declared, scope: &ClassScope, name: &Name) -> bool
    requires { IsScope declared.now scope.now }
    ensures { result ≡ not (is_among (members.ports (model_of declared.now) scope.now.class.0)
        name.now) }
{
    !scope.inherited.has_port(name)
}

/// Whether neither the class nor an ancestor declares a message on this port, of this direction and
/// name, with so many parameters.
pub(crate) fn lacks_message(
    declared: &Declared,
    scope: &ClassScope,
    port: &Name,
    out: bool,
    name: &Name,
    count: usize,
) -> bool
    requires { IsScope declared.now scope.now }
    ensures { result ≡ not (list_any (calls.is_message port.now out name.now count)
        (calls.messages (model_of declared.now) scope.now.class.0)) }
{
    !scope.inherited.has_message(port, out, name, count)
}
