// A sequencer and a reader, step by step, against what they are told.
mod reader;
mod scene;
mod sequencer;
