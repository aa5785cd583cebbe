ghost use Rattle.px_body_spelling.specs.Laws.{WrittenBodyIsRead};

/// A body in range is read again as it was written, whatever follows it, and bytes that are read as a body begin with its
/// spelling.
pub fn written_body_is_read()
    ensures { WrittenBodyIsRead }
{}
