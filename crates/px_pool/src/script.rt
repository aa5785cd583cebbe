/// What a link in memory says, whatever it is sent.
#[derive(Drop)]
pub struct Script {
    /// The bytes that it gives. Then it ends.
    pub bytes: Vec<u8>,
    /// The most that it gives in a call.
    pub most: usize,
    /// The calls of `send` that fail, counted from 0.
    pub failing_sends: Vec<u64>,
    /// The calls of `receive` that fail, counted from 0.
    pub failing_receives: Vec<u64>,
}
