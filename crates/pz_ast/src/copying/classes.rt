use crate::copying::parts::{Copied, copy_five, copy_four, copy_two};
use pz_syntax::pz_items::both;
use pz_syntax::{DataClass, DataMethod, Message, ProcessClass, ProcessMethod, Start, VarGroup};
use std::alloc::{AllocError, Global};

impl Copied for VarGroup {
    fn copied(&self, alloc: Global) -> Result<VarGroup, AllocError> {
        let (names, kind) = copy_two(alloc, &self.names, &self.kind)?;
        Ok(VarGroup { names, kind })
    }
}

impl Copied for DataClass {
    fn copied(&self, alloc: Global) -> Result<DataClass, AllocError> {
        let ((name, parent), (variables, methods)) = copy_four(
            alloc,
            &self.name,
            &self.parent,
            &self.variables,
            &self.methods,
        )?;
        Ok(DataClass {
            name,
            parent,
            variables,
            methods,
        })
    }
}

impl Copied for DataMethod {
    fn copied(&self, alloc: Global) -> Result<DataMethod, AllocError> {
        let (((name, inputs), (result, locals)), body) = copy_five(
            alloc,
            &self.name,
            &self.inputs,
            &self.result,
            &self.locals,
            &self.body,
        )?;
        Ok(DataMethod {
            name,
            inputs,
            result,
            locals,
            body,
        })
    }
}

impl Copied for ProcessClass {
    fn copied(&self, alloc: Global) -> Result<ProcessClass, AllocError> {
        let outside = copy_four(
            alloc,
            &self.name,
            &self.parameters,
            &self.parent,
            &self.ports,
        );
        let inside = copy_four(
            alloc,
            &self.messages,
            &self.variables,
            &self.start,
            &self.methods,
        );
        let (outside, inside) = both(outside, inside)?;
        let ((name, parameters), (parent, ports)) = outside;
        let ((messages, variables), (start, methods)) = inside;
        Ok(ProcessClass {
            name,
            parameters,
            parent,
            ports,
            messages,
            variables,
            start,
            methods,
        })
    }
}

impl Copied for Message {
    fn copied(&self, alloc: Global) -> Result<Message, AllocError> {
        let message = copy_two(alloc, &self.name, &self.types);
        let (port, (name, types)) = both(self.port.copy(), message)?;
        Ok(Message {
            port,
            out: self.out,
            name,
            types,
        })
    }
}

impl Copied for Start {
    fn copied(&self, alloc: Global) -> Result<Start, AllocError> {
        let (method, args) = copy_two(alloc, &self.method, &self.args)?;
        Ok(Start { method, args })
    }
}

impl Copied for ProcessMethod {
    fn copied(&self, alloc: Global) -> Result<ProcessMethod, AllocError> {
        let (((name, inputs), (outputs, locals)), body) = copy_five(
            alloc,
            &self.name,
            &self.inputs,
            &self.outputs,
            &self.locals,
            &self.body,
        )?;
        Ok(ProcessMethod {
            name,
            inputs,
            outputs,
            locals,
            body,
        })
    }
}
