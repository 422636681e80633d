use jv_names::Units;

/// What a rule does to a class. A donor is given by its number from 1.
#[derive(Drop)]
pub enum Edit {
    /// The class's bytes become the donor's.
    File {
        donor: u32,
    },
    /// A method gets the code that the donor has for it.
    Body {
        method: Units,
        desc: Units,
        donor: u32,
    },
    /// The donor's method is added.
    Add {
        method: Units,
        desc: Units,
        donor: u32,
    },
    /// A method begins with a call of a static method without parameters and result, of another class.
    Entry {
        method: Units,
        desc: Units,
        to_class: Units,
        to_method: Units,
    },
    /// Calls of one static method, by class, name and descriptor, become calls of another class's, by class and name.
    Redirect {
        from_class: Units,
        from_method: Units,
        desc: Units,
        to_class: Units,
        to_method: Units,
    },
    /// Pushes of one int in a method become pushes of another.
    Constant {
        method: Units,
        desc: Units,
        from: i32,
        to: i32,
    },
}

/// A rule of a set, for the class of a name.
#[derive(Drop)]
pub struct Rule {
    pub set: Units,
    pub class: Units,
    pub edit: Edit,
}
