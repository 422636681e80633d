ghost use Rattle.std.specs.Prelude.{◌≡◌, bytes_eq};
ghost use Rattle.std.specs.List.{list_any};
ghost use Rattle.first_form.specs.BaseSet.{is_base as names_base};

/// The classes that stand ready and are in no file.
const BASE_CLASSES: [&[u8]; 41] = [
    b"java/lang/Object",
    b"java/lang/Cloneable",
    b"java/io/Serializable",
    b"java/lang/String",
    b"java/lang/StringBuilder",
    b"java/lang/Class",
    b"java/lang/Runnable",
    b"java/lang/Thread",
    b"java/io/PrintStream",
    b"java/lang/System",
    b"java/lang/Throwable",
    b"java/lang/Exception",
    b"java/lang/RuntimeException",
    b"java/lang/Error",
    b"java/lang/LinkageError",
    b"java/lang/VirtualMachineError",
    b"java/lang/NoClassDefFoundError",
    b"java/lang/ClassFormatError",
    b"java/lang/ClassCircularityError",
    b"java/lang/VerifyError",
    b"java/lang/ExceptionInInitializerError",
    b"java/lang/IncompatibleClassChangeError",
    b"java/lang/NoSuchFieldError",
    b"java/lang/NoSuchMethodError",
    b"java/lang/AbstractMethodError",
    b"java/lang/InstantiationError",
    b"java/lang/InternalError",
    b"java/lang/OutOfMemoryError",
    b"java/lang/StackOverflowError",
    b"java/lang/ArithmeticException",
    b"java/lang/NullPointerException",
    b"java/lang/ClassCastException",
    b"java/lang/IndexOutOfBoundsException",
    b"java/lang/NegativeArraySizeException",
    b"java/lang/ArrayStoreException",
    b"java/lang/IllegalMonitorStateException",
    b"java/lang/IllegalArgumentException",
    b"java/lang/ArrayIndexOutOfBoundsException",
    b"java/lang/StringIndexOutOfBoundsException",
    b"java/lang/IllegalThreadStateException",
    b"java/lang/InterruptedException",
];

/// Whether a name is one of these.
fn is_among(name: &[u8], names: &[&[u8]]) -> bool
    ensures { result ≡ list_any (λ other. bytes_eq name.now other.now) names.now }
{
    names.iter().any(|other| name == *other)
}

/// Whether a name is that of a base class, which no class file may define.
pub fn is_base(name: &[u8]) -> bool
    ensures { result ≡ names_base name.now }
{
    is_among(name, &BASE_CLASSES)
}
