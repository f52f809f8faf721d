//! What is wrong in a request's header.

/// What is wrong in a request's header, in the order in which it is tested.
#[derive(Clone, Copy, PartialEq, Eq, Drop)]
pub enum HeaderFault {
    /// The kind is none of 1, 2, 3.
    BadKind,
    /// The interface of a packet is neither 0 nor 1, or that of a load or a moment isn't 0.
    BadInterface,
    /// The body is longer than its kind allows: 65,535 bytes of a packet, 262,144 of a load, 0 of a moment.
    TooLong,
}
