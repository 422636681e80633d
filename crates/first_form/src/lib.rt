//! The one form of class files that is accepted so far, in the place of the whole class-file grammar, of the whole
//! instruction table and of the type check: what its definitions cite is here, the definitions are in specs/.
#![tactic(auto)]

/// An operation on two ints (JVM specification 6.5 `iadd`, `isub`, `imul`).
#[derive(Clone, Copy, Debug, PartialEq, Eq)]
pub enum Op {
    Add,
    Sub,
    Mul,
}

/// An instruction (JVM specification 6.5).
#[derive(Clone, Copy, Debug, PartialEq, Eq)]
pub enum Instr {
    /// `iconst_m1` to `iconst_5`.
    IntConst(i8),
    IntArith(Op),
    /// `getstatic` of an entry of the pool.
    GetStatic(u16),
    /// `invokevirtual` of an entry of the pool.
    InvokeVirtual(u16),
    Return,
}

/// What an entry of an operand stack is, as the type check sees it.
#[derive(Clone, Copy, Debug, PartialEq, Eq)]
pub enum Kind {
    Int,
    /// A `java.io.PrintStream`.
    Stream,
}
