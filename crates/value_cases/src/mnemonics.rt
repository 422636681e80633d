//! The names of instructions, as `javap` has them.

use class_code::{
    Arithmetic, Branch, Condition, Conversion, Element, Instr, IntConst, Kind, LongConst, PoolOp,
    Simple, Slot, StackOp, Width,
};

/// `iload_0` to `aload_3`.
fn load(kind: Kind, slot: Slot) -> &'static str {
    match (kind, slot) {
        (Kind::Int, Slot::Zero) => "iload_0",
        (Kind::Int, Slot::One) => "iload_1",
        (Kind::Int, Slot::Two) => "iload_2",
        (Kind::Int, Slot::Three) => "iload_3",
        (Kind::Long, Slot::Zero) => "lload_0",
        (Kind::Long, Slot::One) => "lload_1",
        (Kind::Long, Slot::Two) => "lload_2",
        (Kind::Long, Slot::Three) => "lload_3",
        (Kind::Reference, Slot::Zero) => "aload_0",
        (Kind::Reference, Slot::One) => "aload_1",
        (Kind::Reference, Slot::Two) => "aload_2",
        (Kind::Reference, Slot::Three) => "aload_3",
    }
}

/// `istore_0` to `astore_3`.
fn store(kind: Kind, slot: Slot) -> &'static str {
    match (kind, slot) {
        (Kind::Int, Slot::Zero) => "istore_0",
        (Kind::Int, Slot::One) => "istore_1",
        (Kind::Int, Slot::Two) => "istore_2",
        (Kind::Int, Slot::Three) => "istore_3",
        (Kind::Long, Slot::Zero) => "lstore_0",
        (Kind::Long, Slot::One) => "lstore_1",
        (Kind::Long, Slot::Two) => "lstore_2",
        (Kind::Long, Slot::Three) => "lstore_3",
        (Kind::Reference, Slot::Zero) => "astore_0",
        (Kind::Reference, Slot::One) => "astore_1",
        (Kind::Reference, Slot::Two) => "astore_2",
        (Kind::Reference, Slot::Three) => "astore_3",
    }
}

/// `iadd` to `lxor`.
fn arithmetic(operation: Arithmetic, width: Width) -> &'static str {
    match (operation, width) {
        (Arithmetic::Add, Width::Int) => "iadd",
        (Arithmetic::Add, Width::Long) => "ladd",
        (Arithmetic::Sub, Width::Int) => "isub",
        (Arithmetic::Sub, Width::Long) => "lsub",
        (Arithmetic::Mul, Width::Int) => "imul",
        (Arithmetic::Mul, Width::Long) => "lmul",
        (Arithmetic::Div, Width::Int) => "idiv",
        (Arithmetic::Div, Width::Long) => "ldiv",
        (Arithmetic::Rem, Width::Int) => "irem",
        (Arithmetic::Rem, Width::Long) => "lrem",
        (Arithmetic::Neg, Width::Int) => "ineg",
        (Arithmetic::Neg, Width::Long) => "lneg",
        (Arithmetic::Shl, Width::Int) => "ishl",
        (Arithmetic::Shl, Width::Long) => "lshl",
        (Arithmetic::Shr, Width::Int) => "ishr",
        (Arithmetic::Shr, Width::Long) => "lshr",
        (Arithmetic::Ushr, Width::Int) => "iushr",
        (Arithmetic::Ushr, Width::Long) => "lushr",
        (Arithmetic::And, Width::Int) => "iand",
        (Arithmetic::And, Width::Long) => "land",
        (Arithmetic::Or, Width::Int) => "ior",
        (Arithmetic::Or, Width::Long) => "lor",
        (Arithmetic::Xor, Width::Int) => "ixor",
        (Arithmetic::Xor, Width::Long) => "lxor",
    }
}

/// An instruction that is its opcode alone.
fn simple_name(simple: Simple) -> &'static str {
    match simple {
        Simple::Nop => "nop",
        Simple::ConstNull => "aconst_null",
        Simple::ConstInt(IntConst::MinusOne) => "iconst_m1",
        Simple::ConstInt(IntConst::Zero) => "iconst_0",
        Simple::ConstInt(IntConst::One) => "iconst_1",
        Simple::ConstInt(IntConst::Two) => "iconst_2",
        Simple::ConstInt(IntConst::Three) => "iconst_3",
        Simple::ConstInt(IntConst::Four) => "iconst_4",
        Simple::ConstInt(IntConst::Five) => "iconst_5",
        Simple::ConstLong(LongConst::Zero) => "lconst_0",
        Simple::ConstLong(LongConst::One) => "lconst_1",
        Simple::Load(kind, slot) => load(kind, slot),
        Simple::Store(kind, slot) => store(kind, slot),
        Simple::ArrayLoad(Element::Int) => "iaload",
        Simple::ArrayLoad(Element::Long) => "laload",
        Simple::ArrayLoad(Element::Reference) => "aaload",
        Simple::ArrayLoad(Element::Byte) => "baload",
        Simple::ArrayLoad(Element::Char) => "caload",
        Simple::ArrayLoad(Element::Short) => "saload",
        Simple::ArrayStore(Element::Int) => "iastore",
        Simple::ArrayStore(Element::Long) => "lastore",
        Simple::ArrayStore(Element::Reference) => "aastore",
        Simple::ArrayStore(Element::Byte) => "bastore",
        Simple::ArrayStore(Element::Char) => "castore",
        Simple::ArrayStore(Element::Short) => "sastore",
        Simple::Stack(StackOp::Pop) => "pop",
        Simple::Stack(StackOp::Pop2) => "pop2",
        Simple::Stack(StackOp::Dup) => "dup",
        Simple::Stack(StackOp::DupX1) => "dup_x1",
        Simple::Stack(StackOp::DupX2) => "dup_x2",
        Simple::Stack(StackOp::Dup2) => "dup2",
        Simple::Stack(StackOp::Dup2X1) => "dup2_x1",
        Simple::Stack(StackOp::Dup2X2) => "dup2_x2",
        Simple::Stack(StackOp::Swap) => "swap",
        Simple::Arithmetic(operation, width) => arithmetic(operation, width),
        Simple::Convert(Conversion::IntToLong) => "i2l",
        Simple::Convert(Conversion::LongToInt) => "l2i",
        Simple::Convert(Conversion::IntToByte) => "i2b",
        Simple::Convert(Conversion::IntToChar) => "i2c",
        Simple::Convert(Conversion::IntToShort) => "i2s",
        Simple::CompareLongs => "lcmp",
        Simple::Return(Kind::Int) => "ireturn",
        Simple::Return(Kind::Long) => "lreturn",
        Simple::Return(Kind::Reference) => "areturn",
        Simple::ReturnVoid => "return",
        Simple::ArrayLength => "arraylength",
        Simple::Throw => "athrow",
        Simple::MonitorEnter => "monitorenter",
        Simple::MonitorExit => "monitorexit",
    }
}

/// A branch of two bytes.
fn branch_name(branch: Branch) -> &'static str {
    match branch {
        Branch::If(Condition::Eq) => "ifeq",
        Branch::If(Condition::Ne) => "ifne",
        Branch::If(Condition::Lt) => "iflt",
        Branch::If(Condition::Ge) => "ifge",
        Branch::If(Condition::Gt) => "ifgt",
        Branch::If(Condition::Le) => "ifle",
        Branch::IfIntCompare(Condition::Eq) => "if_icmpeq",
        Branch::IfIntCompare(Condition::Ne) => "if_icmpne",
        Branch::IfIntCompare(Condition::Lt) => "if_icmplt",
        Branch::IfIntCompare(Condition::Ge) => "if_icmpge",
        Branch::IfIntCompare(Condition::Gt) => "if_icmpgt",
        Branch::IfIntCompare(Condition::Le) => "if_icmple",
        Branch::IfSameReference => "if_acmpeq",
        Branch::IfOtherReference => "if_acmpne",
        Branch::Goto => "goto",
        Branch::IfNull => "ifnull",
        Branch::IfNonNull => "ifnonnull",
    }
}

/// An instruction that names an entry of the constant pool by two bytes.
fn pool_name(op: PoolOp) -> &'static str {
    match op {
        PoolOp::LoadConstWide => "ldc_w",
        PoolOp::LoadLongConst => "ldc2_w",
        PoolOp::GetStatic => "getstatic",
        PoolOp::PutStatic => "putstatic",
        PoolOp::GetField => "getfield",
        PoolOp::PutField => "putfield",
        PoolOp::InvokeVirtual => "invokevirtual",
        PoolOp::InvokeSpecial => "invokespecial",
        PoolOp::InvokeStatic => "invokestatic",
        PoolOp::New => "new",
        PoolOp::NewReferenceArray => "anewarray",
        PoolOp::CheckCast => "checkcast",
        PoolOp::InstanceOf => "instanceof",
    }
}

/// How `javap` calls an instruction.
pub fn mnemonic(instr: &Instr) -> &'static str {
    match instr {
        Instr::Simple(simple) => simple_name(*simple),
        Instr::PushByte(_) => "bipush",
        Instr::PushShort(_) => "sipush",
        Instr::LoadConst(_) => "ldc",
        Instr::Load(Kind::Int, _) => "iload",
        Instr::Load(Kind::Long, _) => "lload",
        Instr::Load(Kind::Reference, _) => "aload",
        Instr::LoadWide(Kind::Int, _) => "iload_w",
        Instr::LoadWide(Kind::Long, _) => "lload_w",
        Instr::LoadWide(Kind::Reference, _) => "aload_w",
        Instr::Store(Kind::Int, _) => "istore",
        Instr::Store(Kind::Long, _) => "lstore",
        Instr::Store(Kind::Reference, _) => "astore",
        Instr::StoreWide(Kind::Int, _) => "istore_w",
        Instr::StoreWide(Kind::Long, _) => "lstore_w",
        Instr::StoreWide(Kind::Reference, _) => "astore_w",
        Instr::Increment(_, _) => "iinc",
        Instr::IncrementWide(_, _) => "iinc_w",
        Instr::Branch(branch, _) => branch_name(*branch),
        Instr::GotoWide(_) => "goto_w",
        Instr::TableSwitch(_) => "tableswitch",
        Instr::LookupSwitch(_) => "lookupswitch",
        Instr::Pool(op, _) => pool_name(*op),
        Instr::InvokeInterface(_, _) => "invokeinterface",
        Instr::NewArray(_) => "newarray",
        Instr::MultiNewArray(_, _) => "multianewarray",
        Instr::PushInt(_) | Instr::PushLong(_) => "none",
    }
}
