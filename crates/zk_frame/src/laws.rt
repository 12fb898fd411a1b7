//! What follows from the calls of a framer, each law the contract of a function that does nothing.

ghost use Rattle.zk_frame.specs.Streams.{StartsFramed, FeedKeepsFramed, TakeKeepsFramed};
ghost use Rattle.zk_frame.specs.Streams.{RestIsStream, WaitingIsStream, TooLongStays};

/// The frames taken, the one that waits and the bytes held are the stream of all bytes that feeds
/// took, however they were cut: each call keeps that, and at each point it is so.
pub fn one_stream_of_all_bytes()
    ensures starts { StartsFramed }
    ensures feed { FeedKeepsFramed }
    ensures take { TakeKeepsFramed }
    ensures rest { RestIsStream }
    ensures waiting { WaitingIsStream }
{}

/// A length that a feed refused is refused by each later one, whatever comes.
pub fn too_long_stays()
    ensures { TooLongStays }
{}
