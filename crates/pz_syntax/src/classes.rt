use crate::{Expr, Id, Stmt};
use pz_items::Items;

/// Names that are declared together, and their type.
#[derive(Drop)]
pub struct VarGroup {
    pub names: Items<Id>,
    pub kind: Id,
}

/// A data class. A section is there if its keyword is written.
pub struct DataClass {
    pub name: Id,
    pub parent: Option<Id>,
    pub variables: Option<Items<VarGroup>>,
    pub methods: Option<Items<DataMethod>>,
}

// Written out for the same reason as that of `Expr`.
impl Drop for DataClass {
    fn drop(self) {
        let DataClass {
            name,
            parent,
            variables,
            methods,
        } = self;
        std::mem::drop(name);
        std::mem::drop(parent);
        std::mem::drop(variables);
        std::mem::drop(methods);
    }
}

/// A method of a data class. `init` may name one too.
pub struct DataMethod {
    pub name: Id,
    pub inputs: Option<Items<VarGroup>>,
    pub result: Id,
    pub locals: Option<Items<VarGroup>>,
    pub body: Items<Expr>,
}

// Written out for the same reason as that of `Expr`.
impl Drop for DataMethod {
    fn drop(self) {
        let DataMethod {
            name,
            inputs,
            result,
            locals,
            body,
        } = self;
        std::mem::drop(name);
        std::mem::drop(inputs);
        std::mem::drop(result);
        std::mem::drop(locals);
        std::mem::drop(body);
    }
}

/// A process class. A section is there if its keyword is written, and the parameters if their
/// brackets are.
pub struct ProcessClass {
    pub name: Id,
    pub parameters: Option<Items<VarGroup>>,
    pub parent: Option<Id>,
    pub ports: Option<Items<Id>>,
    pub messages: Option<Items<Message>>,
    pub variables: Option<Items<VarGroup>>,
    pub start: Option<Start>,
    pub methods: Option<Items<ProcessMethod>>,
}

// Written out for the same reason as that of `Expr`.
impl Drop for ProcessClass {
    fn drop(self) {
        let ProcessClass {
            name,
            parameters,
            parent,
            ports,
            messages,
            variables,
            start,
            methods,
        } = self;
        std::mem::drop(name);
        std::mem::drop(parameters);
        std::mem::drop(parent);
        std::mem::drop(ports);
        std::mem::drop(messages);
        std::mem::drop(variables);
        std::mem::drop(start);
        std::mem::drop(methods);
    }
}

/// A message that may go out of a port, or come in at it.
#[derive(Drop)]
pub struct Message {
    pub port: Id,
    pub out: bool,
    pub name: Id,
    pub types: Option<Items<Id>>,
}

/// The call with which a process starts.
pub struct Start {
    pub method: Id,
    pub args: Items<Expr>,
}

// Written out for the same reason as that of `Expr`.
impl Drop for Start {
    fn drop(self) {
        let Start { method, args } = self;
        std::mem::drop(method);
        std::mem::drop(args);
    }
}

/// A method of a process class.
pub struct ProcessMethod {
    pub name: Id,
    pub inputs: Items<VarGroup>,
    pub outputs: Items<VarGroup>,
    pub locals: Option<Items<VarGroup>>,
    pub body: Items<Stmt>,
}

// Written out for the same reason as that of `Expr`.
impl Drop for ProcessMethod {
    fn drop(self) {
        let ProcessMethod {
            name,
            inputs,
            outputs,
            locals,
            body,
        } = self;
        std::mem::drop(name);
        std::mem::drop(inputs);
        std::mem::drop(outputs);
        std::mem::drop(locals);
        std::mem::drop(body);
    }
}
