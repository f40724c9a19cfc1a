use crate::units::{REPLACE, bytes_of};
use std::test::Fail;
use wire_messages::{Message, input_of, messages_read_back, output_of};

// Bytes with the place at which they stop being one input, and `None` where they are one.
const INPUTS: [(Option<u32>, &[u8]); 5] = [
    (None, b"0 0 5 1 2 7"),
    (Some(24), b"0 0 5 1 2 7 0"),
    (Some(20), b"0 0 5 1 2"),
    (Some(16), b"0 0 5 1 d 7"),
    (None, REPLACE),
];

// The same of outputs.
const OUTPUTS: [(Option<u32>, &[u8]); 4] = [
    (None, b"0 2 0 0 7 0 0"),
    (Some(28), b"0 2 0 0 7 0 0 0"),
    (Some(24), b"0 2 0 0 7 0"),
    (Some(8), b"0 2 5 0"),
];

fn place_of<T: Drop>(message: Message<T>) -> Option<u32> {
    match message {
        Message::Whole(_) => None,
        Message::Wrong { place } => Some(place),
    }
}

#[test]
fn inputs_are_whole(rt: HostRuntime) -> Result<(), Fail> {
    messages_read_back();
    for (place, units) in &INPUTS {
        let bytes = bytes_of(rt.alloc(), units)?;
        assert!(rt; place_of(input_of(rt.alloc(), bytes.as_slice())?) == *place);
    }
    Ok(())
}

#[test]
fn outputs_are_whole(rt: HostRuntime) -> Result<(), Fail> {
    for (place, units) in &OUTPUTS {
        let bytes = bytes_of(rt.alloc(), units)?;
        assert!(rt; place_of(output_of(rt.alloc(), bytes.as_slice())?) == *place);
    }
    Ok(())
}
