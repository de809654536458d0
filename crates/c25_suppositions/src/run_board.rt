//! The boards whose runs are tested.

use c25_board::board::Board;
use c25_board::ports::ListSink;
use c25_board::samples::Samples;

/// A board that keeps all of its outputs.
pub type RunBoard = Board<Samples, ListSink>;
