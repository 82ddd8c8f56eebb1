/// What each job of a batch passes before its ops. Nothing is known of a gate but that it returns.
pub trait Gate: Sync {
    /// Lets job number `job` pass.
    fn pass(&self, job: u32);
}

/// A gate that returns at once.
pub struct OpenGate;

impl Gate for OpenGate {
    fn pass(&self, _job: u32) {}
}
