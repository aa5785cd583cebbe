//! Files, sources and sinks as traits, in memory and real, and the words that the system gives. They count their
//! faults: a call that fails raises the count by one, and no other call changes it; in memory they tell their bytes too.
//!
//! Code over `Files`, `Source` and `Sink` is generic, so what is proved of it over the objects in memory holds
//! over the real ones too, as far as these keep the traits' clauses.
#![tactic(auto)]

mod byte_sink;
mod byte_source;
mod files;
mod host_files;
mod map_files;
mod sink;
mod source;
mod stream_sink;
mod stream_source;
mod system_words;

pub use byte_sink::ByteSink;
pub use byte_source::ByteSource;
pub use files::{FileFault, Files};
pub use host_files::{HostFiles, read_up_to};
pub use map_files::MapFiles;
pub use sink::{ErrorOutput, Failed, Output, Sink, write_all};
pub use source::Source;
pub use stream_sink::StreamSink;
pub use stream_source::StreamSource;
pub use system_words::{WordsFault, words};
