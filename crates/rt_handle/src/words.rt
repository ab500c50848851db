//! The two words of a handle, as plain data.

/// The two words of a handle, which a call that reads finds as the last call that writes left them.
#[repr(C)]
#[derive(Drop)]
pub struct Words {
    /// Where the object is.
    pub at: *const u8,
    /// How many objects there are, none or one.
    pub count: u64,
}
