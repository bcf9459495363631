/// Where a worker is in one of its calls.
#[derive(Clone, Copy, Debug, PartialEq, Eq)]
pub enum Moment {
    /// At the start of a fault's event on a file, under the file's lock.
    Inside,
    /// After the call was answered.
    Answered,
}

/// What a worker passes on its way. It may wait there for other workers, where its type has the right to wait; nothing
/// is promised of it.
pub trait Gate {
    /// Worker `worker` passes in its call `call`, both counted from 0.
    fn pass(&self, worker: u32, call: u32, moment: Moment);
}

/// A gate at which nobody waits.
#[derive(Clone, Copy, Debug)]
pub struct OpenGate;

impl Gate for OpenGate {
    fn pass(&self, worker: u32, call: u32, moment: Moment) {
        let _ = (worker, call, moment);
    }
}
