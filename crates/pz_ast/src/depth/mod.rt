ghost use Rattle.std.specs.Prelude.{◌≡◌, ℕ, max, ◌<◌, ◌^◌, option_map};
ghost use Rattle.pz_syntax.specs.ClassView.{data_method_view, start_view, process_method_view, process_class_view, decl_view, model_view};
ghost use Rattle.pz_syntax.specs.ModelText.{HasFewMarks};
ghost use Rattle.pz_syntax.specs.ModelNesting.{greatest, optional_nesting, data_method_nesting, data_class_nesting, start_nesting, process_method_nesting, process_class_nesting, decl_nesting, nesting};

mod exprs;
mod stmts;

use exprs::exprs_nesting;
use pz_syntax::pz_items::Items;
use pz_syntax::{DataMethod, Decl, Model, ProcessClass, ProcessMethod, Start};
use stmts::stmts_nesting;

/// How many constructs that nest stand one in another, at most: brackets, blocks, guards, `par`,
/// `sel`, `if`, `while`, `abort`, `interrupt`, lists of arguments or of variables in brackets, and
/// signs with their operands. The lists of heads, `init`, `new`, instances, messages and channels
/// are none.
pub fn nesting(model: &Model) -> u32
    requires { HasFewMarks (model_view model.now) }
    ensures { result ≡ nesting (model_view model.now) }
{
    greatest(model.decls.as_slice())
}

/// What has a nesting.
trait Nest {
    ghost nesting_of: { Self → ℕ };

    fn nesting(&self) -> u32
        requires { nesting_of self.now < 2 ^ 32 }
        ensures { result ≡ nesting_of self.now };
}

fn greatest<T: Nest>(parts: &[T]) -> u32
    requires { greatest T.nesting_of parts.now < 2 ^ 32 }
    ensures { result ≡ greatest T.nesting_of parts.now }
{
    let mut deepest = 0;
    for part in parts {
        deepest = deepest.max(part.nesting());
    }
    deepest
}

impl Nest for Decl {
    ghost nesting_of = { λ d. decl_nesting (decl_view d) };

    fn nesting(&self) -> u32 {
        match self {
            Decl::Data(class) => methods_nesting(&class.methods),
            Decl::Process(class) => process_nesting(class),
            Decl::Cluster(_) => 0,
            Decl::System(_) => 0,
        }
    }
}

impl Nest for DataMethod {
    ghost nesting_of = { λ m. data_method_nesting (data_method_view m) };

    fn nesting(&self) -> u32 {
        exprs_nesting(self.body.as_slice())
    }
}

impl Nest for ProcessMethod {
    ghost nesting_of = { λ m. process_method_nesting (process_method_view m) };

    fn nesting(&self) -> u32 {
        stmts_nesting(self.body.as_slice())
    }
}

fn methods_nesting<T: Nest>(methods: &Option<Items<T>>) -> u32
    requires { optional_nesting (greatest T.nesting_of) methods.now < 2 ^ 32 }
    ensures { result ≡ optional_nesting (greatest T.nesting_of) methods.now }
{
    match methods {
        None => 0,
        Some(methods) => greatest(methods.as_slice()),
    }
}

fn process_nesting(class: &ProcessClass) -> u32
    requires { process_class_nesting (process_class_view class.now) < 2 ^ 32 }
    ensures { result ≡ process_class_nesting (process_class_view class.now) }
{
    start_nesting(&class.start).max(methods_nesting(&class.methods))
}

fn start_nesting(start: &Option<Start>) -> u32
    requires { optional_nesting start_nesting (option_map start_view start.now) < 2 ^ 32 }
    ensures { result ≡ optional_nesting start_nesting (option_map start_view start.now) }
{
    match start {
        None => 0,
        Some(start) => exprs_nesting(start.args.as_slice()),
    }
}
