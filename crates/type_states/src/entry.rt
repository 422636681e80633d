use class_tree::StackMapFrame;

/// A state of a stack map.
#[derive(Clone, Copy)]
pub(crate) struct Entry<'a> {
    /// The instruction's offset in bytes.
    pub(crate) at: u16,
    /// The place of the list of its local variables.
    pub(crate) locals: usize,
    /// The entry as it stands in the class file, which lists the operand stack.
    pub(crate) frame: &'a StackMapFrame,
}
