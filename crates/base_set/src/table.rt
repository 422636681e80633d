ghost use Rattle.std.specs.Prelude.{◌≡◌, IsTrue, map};
ghost use Rattle.std.specs.List.{list_all};
ghost use Rattle.base_set.specs.BaseSet.{classes, errors, error_class};
ghost use Rattle.base_set.specs.Rows.{class_of, error_of, is_ready, is_well_formed_error};

/// A base class. Its names are in internal form.
#[derive(Drop)]
pub struct ClassRow {
    pub name: &'static [u8],
    pub flags: u16,
    pub superclass: Option<&'static [u8]>,
    pub interfaces: &'static [&'static [u8]],
    pub fields: &'static [FieldRow],
    pub methods: &'static [MethodRow],
}

/// A field of a base class.
pub struct FieldRow {
    pub flags: u16,
    pub name: &'static [u8],
    pub desc: &'static [u8],
}

/// A method of a base class.
pub struct MethodRow {
    pub flags: u16,
    pub name: &'static [u8],
    pub desc: &'static [u8],
    /// How many local variables its parameters take, with `this`.
    pub locals: u16,
}

/// A class of which no more is said than its name and its superclass.
pub struct ErrorRow {
    pub name: &'static [u8],
    pub superclass: &'static [u8],
}

/// Public, with the flag that each class has (4.1).
pub const CLASS: u16 = 0x0021;

/// Such a class that has no subclass.
const FINAL_CLASS: u16 = 0x0031;

/// A public interface, which is abstract.
const INTERFACE: u16 = 0x0601;

// Flags of public members (4.5 and 4.6): of an instance, final, static, without code; of a static final field.
const PUBLIC: u16 = 0x0001;

const FINAL: u16 = 0x0011;

const STATIC: u16 = 0x0009;

const ABSTRACT: u16 = 0x0401;

const CONSTANT: u16 = 0x0019;

const OBJECT: Option<&'static [u8]> = Some(b"java/lang/Object");

/// Its flags, its name, its descriptor and its local variables.
macro_rules! method {
    ($flags:expr, $name:expr, $desc:expr, $locals:expr) => {
        MethodRow {
            flags: $flags,
            name: $name,
            desc: $desc,
            locals: $locals,
        }
    };
}

/// Its name and its superclass.
macro_rules! thrown {
    ($name:expr, $superclass:expr) => {
        ErrorRow {
            name: $name,
            superclass: $superclass,
        }
    };
}

/// The methods of each error class.
pub const ERROR_METHODS: [MethodRow; 2] = [
    method!(PUBLIC, b"<init>", b"()V", 1),
    method!(PUBLIC, b"<init>", b"(Ljava/lang/String;)V", 2),
];

static CLASSES: [ClassRow; 11] = [
    ClassRow {
        name: b"java/lang/Object",
        flags: CLASS,
        superclass: None,
        interfaces: &[],
        fields: &[],
        methods: &[
            method!(PUBLIC, b"<init>", b"()V", 1),
            method!(FINAL, b"getClass", b"()Ljava/lang/Class;", 1),
            method!(PUBLIC, b"equals", b"(Ljava/lang/Object;)Z", 2),
            method!(PUBLIC, b"hashCode", b"()I", 1),
            method!(FINAL, b"wait", b"()V", 1),
            method!(FINAL, b"notify", b"()V", 1),
            method!(FINAL, b"notifyAll", b"()V", 1),
        ],
    },
    ClassRow {
        name: b"java/lang/Cloneable",
        flags: INTERFACE,
        superclass: OBJECT,
        interfaces: &[],
        fields: &[],
        methods: &[],
    },
    ClassRow {
        name: b"java/io/Serializable",
        flags: INTERFACE,
        superclass: OBJECT,
        interfaces: &[],
        fields: &[],
        methods: &[],
    },
    ClassRow {
        name: b"java/lang/String",
        flags: FINAL_CLASS,
        superclass: OBJECT,
        interfaces: &[b"java/io/Serializable"],
        fields: &[],
        methods: &[
            method!(PUBLIC, b"length", b"()I", 1),
            method!(PUBLIC, b"charAt", b"(I)C", 2),
            method!(PUBLIC, b"equals", b"(Ljava/lang/Object;)Z", 2),
        ],
    },
    ClassRow {
        name: b"java/lang/StringBuilder",
        flags: FINAL_CLASS,
        superclass: OBJECT,
        interfaces: &[],
        fields: &[],
        methods: &[
            method!(PUBLIC, b"<init>", b"()V", 1),
            method!(PUBLIC, b"append", b"(I)Ljava/lang/StringBuilder;", 2),
            method!(PUBLIC, b"append", b"(J)Ljava/lang/StringBuilder;", 3),
            method!(PUBLIC, b"append", b"(C)Ljava/lang/StringBuilder;", 2),
            method!(PUBLIC, b"append", b"(Z)Ljava/lang/StringBuilder;", 2),
            method!(
                PUBLIC,
                b"append",
                b"(Ljava/lang/String;)Ljava/lang/StringBuilder;",
                2
            ),
            method!(PUBLIC, b"toString", b"()Ljava/lang/String;", 1),
        ],
    },
    ClassRow {
        name: b"java/lang/Class",
        flags: FINAL_CLASS,
        superclass: OBJECT,
        interfaces: &[],
        fields: &[],
        methods: &[],
    },
    ClassRow {
        name: b"java/lang/Runnable",
        flags: INTERFACE,
        superclass: OBJECT,
        interfaces: &[],
        fields: &[],
        methods: &[method!(ABSTRACT, b"run", b"()V", 1)],
    },
    ClassRow {
        name: b"java/lang/Thread",
        flags: CLASS,
        superclass: OBJECT,
        interfaces: &[b"java/lang/Runnable"],
        fields: &[],
        methods: &[
            method!(PUBLIC, b"<init>", b"()V", 1),
            method!(PUBLIC, b"<init>", b"(Ljava/lang/Runnable;)V", 2),
            method!(PUBLIC, b"start", b"()V", 1),
            method!(PUBLIC, b"run", b"()V", 1),
            method!(FINAL, b"join", b"()V", 1),
            method!(STATIC, b"currentThread", b"()Ljava/lang/Thread;", 0),
        ],
    },
    ClassRow {
        name: b"java/io/PrintStream",
        flags: CLASS,
        superclass: OBJECT,
        interfaces: &[],
        fields: &[],
        methods: &[
            method!(PUBLIC, b"println", b"(I)V", 2),
            method!(PUBLIC, b"println", b"(J)V", 3),
            method!(PUBLIC, b"println", b"(C)V", 2),
            method!(PUBLIC, b"println", b"(Z)V", 2),
            method!(PUBLIC, b"println", b"(Ljava/lang/String;)V", 2),
            method!(PUBLIC, b"print", b"(I)V", 2),
            method!(PUBLIC, b"print", b"(J)V", 3),
            method!(PUBLIC, b"print", b"(C)V", 2),
            method!(PUBLIC, b"print", b"(Z)V", 2),
            method!(PUBLIC, b"print", b"(Ljava/lang/String;)V", 2),
            method!(PUBLIC, b"println", b"()V", 1),
        ],
    },
    ClassRow {
        name: b"java/lang/System",
        flags: FINAL_CLASS,
        superclass: OBJECT,
        interfaces: &[],
        fields: &[FieldRow {
            flags: CONSTANT,
            name: b"out",
            desc: b"Ljava/io/PrintStream;",
        }],
        methods: &[],
    },
    ClassRow {
        name: b"java/lang/Throwable",
        flags: CLASS,
        superclass: OBJECT,
        interfaces: &[b"java/io/Serializable"],
        fields: &[],
        methods: &[
            method!(PUBLIC, b"<init>", b"()V", 1),
            method!(PUBLIC, b"<init>", b"(Ljava/lang/String;)V", 2),
            method!(PUBLIC, b"getMessage", b"()Ljava/lang/String;", 1),
        ],
    },
];

static ERRORS: [ErrorRow; 30] = [
    thrown!(b"java/lang/Exception", b"java/lang/Throwable"),
    thrown!(b"java/lang/RuntimeException", b"java/lang/Exception"),
    thrown!(b"java/lang/Error", b"java/lang/Throwable"),
    thrown!(b"java/lang/LinkageError", b"java/lang/Error"),
    thrown!(b"java/lang/VirtualMachineError", b"java/lang/Error"),
    thrown!(b"java/lang/NoClassDefFoundError", b"java/lang/LinkageError"),
    thrown!(b"java/lang/ClassFormatError", b"java/lang/LinkageError"),
    thrown!(
        b"java/lang/ClassCircularityError",
        b"java/lang/LinkageError"
    ),
    thrown!(b"java/lang/VerifyError", b"java/lang/LinkageError"),
    thrown!(
        b"java/lang/ExceptionInInitializerError",
        b"java/lang/LinkageError"
    ),
    thrown!(
        b"java/lang/IncompatibleClassChangeError",
        b"java/lang/LinkageError"
    ),
    thrown!(
        b"java/lang/NoSuchFieldError",
        b"java/lang/IncompatibleClassChangeError"
    ),
    thrown!(
        b"java/lang/NoSuchMethodError",
        b"java/lang/IncompatibleClassChangeError"
    ),
    thrown!(
        b"java/lang/AbstractMethodError",
        b"java/lang/IncompatibleClassChangeError"
    ),
    thrown!(
        b"java/lang/InstantiationError",
        b"java/lang/IncompatibleClassChangeError"
    ),
    thrown!(b"java/lang/InternalError", b"java/lang/VirtualMachineError"),
    thrown!(
        b"java/lang/OutOfMemoryError",
        b"java/lang/VirtualMachineError"
    ),
    thrown!(
        b"java/lang/StackOverflowError",
        b"java/lang/VirtualMachineError"
    ),
    thrown!(
        b"java/lang/ArithmeticException",
        b"java/lang/RuntimeException"
    ),
    thrown!(
        b"java/lang/NullPointerException",
        b"java/lang/RuntimeException"
    ),
    thrown!(
        b"java/lang/ClassCastException",
        b"java/lang/RuntimeException"
    ),
    thrown!(
        b"java/lang/IndexOutOfBoundsException",
        b"java/lang/RuntimeException"
    ),
    thrown!(
        b"java/lang/NegativeArraySizeException",
        b"java/lang/RuntimeException"
    ),
    thrown!(
        b"java/lang/ArrayStoreException",
        b"java/lang/RuntimeException"
    ),
    thrown!(
        b"java/lang/IllegalMonitorStateException",
        b"java/lang/RuntimeException"
    ),
    thrown!(
        b"java/lang/IllegalArgumentException",
        b"java/lang/RuntimeException"
    ),
    thrown!(
        b"java/lang/ArrayIndexOutOfBoundsException",
        b"java/lang/IndexOutOfBoundsException"
    ),
    thrown!(
        b"java/lang/StringIndexOutOfBoundsException",
        b"java/lang/IndexOutOfBoundsException"
    ),
    thrown!(
        b"java/lang/IllegalThreadStateException",
        b"java/lang/IllegalArgumentException"
    ),
    thrown!(b"java/lang/InterruptedException", b"java/lang/Exception"),
];

/// The base classes that are no errors, in order.
pub fn class_rows() -> &'static [ClassRow]
    ensures said { map class_of result.now ≡ classes }
    ensures ready { IsTrue (list_all is_ready result.now) }
{
    &CLASSES
}

/// The error classes behind them, in order.
pub fn error_rows() -> &'static [ErrorRow]
    ensures said { map error_of result.now ≡ map error_class errors }
    ensures ready { IsTrue (list_all is_well_formed_error result.now) }
{
    &ERRORS
}
