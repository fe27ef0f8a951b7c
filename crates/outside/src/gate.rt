/// Where a worker stops by after each chunk that it claims. It promises nothing and changes no answer.
pub trait Gate {
    fn at(&self, worker: u32, chunk: u32);
}

/// A gate that is always open.
#[derive(Drop)]
pub struct OpenGate;

impl Gate for OpenGate {
    fn at(&self, _worker: u32, _chunk: u32) {}
}
