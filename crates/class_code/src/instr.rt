use sqlite_items::Items;

/// What a load, a store or a return moves.
#[derive(Clone, Copy)]
pub enum Kind {
    Int,
    Long,
    Reference,
}

/// One of the two widths of a number: 32 and 64 bits.
#[derive(Clone, Copy)]
pub enum Width {
    Int,
    Long,
}

/// One of the first four local variables, which an opcode names by itself (`iload_0` to `iload_3`).
#[derive(Clone, Copy)]
pub enum Slot {
    Zero,
    One,
    Two,
    Three,
}

/// What an array's elements are, for a load or a store. `Byte` serves arrays of `boolean` too (`baload`).
#[derive(Clone, Copy)]
pub enum Element {
    Int,
    Long,
    Reference,
    Byte,
    Char,
    Short,
}

/// What the elements of a new array of numbers are: the codes of `newarray` (JVM specification 6.5), without `float` and
/// `double`.
#[derive(Clone, Copy)]
pub enum Primitive {
    Boolean,
    Char,
    Byte,
    Short,
    Int,
    Long,
}

/// An int that has an opcode of its own: `iconst_m1` to `iconst_5`.
#[derive(Clone, Copy)]
pub enum IntConst {
    MinusOne,
    Zero,
    One,
    Two,
    Three,
    Four,
    Five,
}

/// A long that has an opcode of its own: `lconst_0` and `lconst_1`.
#[derive(Clone, Copy)]
pub enum LongConst {
    Zero,
    One,
}

/// What moves or copies operands whatever they hold: `pop`, `pop2`, `dup`, `dup_x1`, `dup_x2`, `dup2`, `dup2_x1`,
/// `dup2_x2` and `swap`.
#[derive(Clone, Copy)]
pub enum StackOp {
    Pop,
    Pop2,
    Dup,
    DupX1,
    DupX2,
    Dup2,
    Dup2X1,
    Dup2X2,
    Swap,
}

/// An operation on numbers of one width: `iadd` and `ladd` to `ixor` and `lxor`. A shift's distance is always an int.
#[derive(Clone, Copy)]
pub enum Arithmetic {
    Add,
    Sub,
    Mul,
    Div,
    Rem,
    Neg,
    Shl,
    Shr,
    Ushr,
    And,
    Or,
    Xor,
}

/// What makes a number of another type: `i2l`, `l2i`, `i2b`, `i2c` and `i2s`.
#[derive(Clone, Copy)]
pub enum Conversion {
    IntToLong,
    LongToInt,
    IntToByte,
    IntToChar,
    IntToShort,
}

/// How an int stands to zero or to another int.
#[derive(Clone, Copy)]
pub enum Condition {
    Eq,
    Ne,
    Lt,
    Ge,
    Gt,
    Le,
}

/// When a branch of two bytes is taken.
#[derive(Clone, Copy)]
pub enum Branch {
    /// An int stands so to zero: `ifeq`, `ifne`, `iflt`, `ifge`, `ifgt`, `ifle`.
    If(Condition),
    /// An int stands so to another: `if_icmpeq`, `if_icmpne`, `if_icmplt`, `if_icmpge`, `if_icmpgt`, `if_icmple`.
    IfIntCompare(Condition),
    /// `if_acmpeq`
    IfSameReference,
    /// `if_acmpne`
    IfOtherReference,
    /// Always: `goto`.
    Goto,
    /// `ifnull`
    IfNull,
    /// `ifnonnull`
    IfNonNull,
}

/// What is done with an entry of the constant pool that two bytes name.
#[derive(Clone, Copy)]
pub enum PoolOp {
    /// `ldc_w`
    LoadConstWide,
    /// `ldc2_w`
    LoadLongConst,
    /// `getstatic`
    GetStatic,
    /// `putstatic`
    PutStatic,
    /// `getfield`
    GetField,
    /// `putfield`
    PutField,
    /// `invokevirtual`
    InvokeVirtual,
    /// `invokespecial`
    InvokeSpecial,
    /// `invokestatic`
    InvokeStatic,
    /// `new`
    New,
    /// `anewarray`
    NewReferenceArray,
    /// `checkcast`
    CheckCast,
    /// `instanceof`
    InstanceOf,
}

/// An instruction that is its opcode alone.
#[derive(Clone, Copy)]
pub enum Simple {
    /// `nop`
    Nop,
    /// `aconst_null`
    ConstNull,
    /// `iconst_m1` to `iconst_5`
    ConstInt(IntConst),
    /// `lconst_0` and `lconst_1`
    ConstLong(LongConst),
    /// `iload_0` to `iload_3`, and the same of `lload` and `aload`
    Load(Kind, Slot),
    /// `istore_0` to `istore_3`, and the same of `lstore` and `astore`
    Store(Kind, Slot),
    /// `iaload`, `laload`, `aaload`, `baload`, `caload`, `saload`
    ArrayLoad(Element),
    /// `iastore`, `lastore`, `aastore`, `bastore`, `castore`, `sastore`
    ArrayStore(Element),
    /// `pop` to `swap`
    Stack(StackOp),
    /// `iadd` to `lxor`
    Arithmetic(Arithmetic, Width),
    /// `i2l` to `i2s`
    Convert(Conversion),
    /// `lcmp`
    CompareLongs,
    /// `ireturn`, `lreturn`, `areturn`
    Return(Kind),
    /// `return`
    ReturnVoid,
    /// `arraylength`
    ArrayLength,
    /// `athrow`
    Throw,
    /// `monitorenter`
    MonitorEnter,
    /// `monitorexit`
    MonitorExit,
}

/// The bytes between a switch's opcode and its operands, as they stand: the standard lets them be any.
#[derive(Clone, Copy)]
pub enum Padding {
    None,
    One(u8),
    Two(u8, u8),
    Three(u8, u8, u8),
}

/// A jump by an int in a range: `tableswitch`.
#[derive(Drop)]
pub struct TableSwitch {
    pub padding: Padding,
    /// Where the int leads that is not from `low` to `high`.
    pub default: i32,
    pub low: i32,
    pub high: i32,
    /// Where each int leads, from `low` on: `high - low + 1` of them.
    pub offsets: Items<i32>,
}

/// A jump by one of some ints: `lookupswitch`.
#[derive(Drop)]
pub struct LookupSwitch {
    pub padding: Padding,
    /// Where the int leads that is none of the keys.
    pub default: i32,
    /// Each key, in rising order, and where it leads.
    pub pairs: Items<(i32, i32)>,
}

/// An instruction (JVM specification 6.5), without those of `float` and `double`, `jsr`, `ret` and `invokedynamic`.
/// Where a branch or a switch leads is counted in bytes from the instruction's own opcode. An index into the constant
/// pool is as it stands, and so is that of a local variable.
#[derive(Drop)]
pub enum Instr {
    /// Its opcode alone.
    Simple(Simple),
    /// `bipush`
    PushByte(i8),
    /// `sipush`
    PushShort(i16),
    /// `ldc`
    LoadConst(u8),
    /// `iload`, `lload`, `aload`
    Load(Kind, u8),
    /// The same with `wide`.
    LoadWide(Kind, u16),
    /// `istore`, `lstore`, `astore`
    Store(Kind, u8),
    /// The same with `wide`.
    StoreWide(Kind, u16),
    /// `iinc`: which local variable, and by how much.
    Increment(u8, i8),
    /// `iinc` with `wide`.
    IncrementWide(u16, i16),
    /// `ifeq` to `goto`, `ifnull` and `ifnonnull`, and where it leads.
    Branch(Branch, i16),
    /// `goto_w`
    GotoWide(i32),
    /// `tableswitch`
    TableSwitch(TableSwitch),
    /// `lookupswitch`
    LookupSwitch(LookupSwitch),
    /// `ldc_w`, `ldc2_w`, `getstatic` to `invokestatic`, `new`, `anewarray`, `checkcast`, `instanceof`, and the entry of the
    /// constant pool.
    Pool(PoolOp, u16),
    /// `invokeinterface`: the entry of the constant pool, and the count, which the code alone does not tell to be right.
    InvokeInterface(u16, u8),
    /// `newarray`
    NewArray(Primitive),
    /// `multianewarray`: the entry of the constant pool, and how many lengths are taken from the stack.
    MultiNewArray(u16, u8),
    /// In a list made ready for running, what stands in the place of `ldc` or `ldc_w` of an Integer. It has no spelling in
    /// code, so that `decode` never gives it.
    PushInt(i32),
    /// In a list made ready for running, what stands in the place of `ldc2_w` of a Long. It has no spelling in code, so that
    /// `decode` never gives it.
    PushLong(i64),
}
