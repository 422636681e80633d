/// A thread, from 1 in the order of making.
#[derive(Clone, Copy, Debug, PartialEq, Eq)]
pub struct ThreadNo(pub u32);

/// An object, from 1 in the order of allocation.
#[derive(Clone, Copy, Debug, PartialEq, Eq)]
pub struct ObjNo(pub u32);

/// An agent's environment (JVM TI `jvmtiEnv`), from 1 in the order of the agents.
#[derive(Clone, Copy, Debug, PartialEq, Eq)]
pub struct EnvNo(pub u32);

/// A class, from 1 in the order of definition.
#[derive(Clone, Copy, Debug, PartialEq, Eq)]
pub struct ClassNo(pub u32);

/// A version of a class, from 0 in the order of installation.
#[derive(Clone, Copy, Debug, PartialEq, Eq)]
pub struct VersionNo {
    pub class: ClassNo,
    pub place: u32,
}

/// A method (JVM TI `jmethodID`): its class, and its place among all names and descriptors that the class has had.
#[derive(Clone, Copy, Debug, PartialEq, Eq)]
pub struct MethodNo {
    pub class: ClassNo,
    pub place: u32,
}

/// A field (JVM TI `jfieldID`): its class, and its place among the class's fields.
#[derive(Clone, Copy, Debug, PartialEq, Eq)]
pub struct FieldNo {
    pub class: ClassNo,
    pub place: u32,
}

/// A place in a method's code (JVM TI `jlocation`): an offset in bytes.
#[derive(Clone, Copy, Debug, PartialEq, Eq)]
pub struct Location {
    pub method: MethodNo,
    pub pc: u16,
}
