use fop_types::Proc;

/// What an owner passes before its brick serves a request. A test can hold a request back there.
pub trait Gate {
    fn pass(&self, brick: u8, proc: Proc);
}

/// The gate that lets everything pass.
#[derive(Clone, Copy)]
pub struct OpenGate;

impl Gate for OpenGate {
    fn pass(&self, _brick: u8, _proc: Proc) {}
}
