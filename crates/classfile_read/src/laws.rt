ghost use Rattle.classfile_read.specs.ClassLaws.{OneTree, OneSpelling, IsSpelled, TreeOrFault, NotBoth, ReadBack, WrittenBack, NoMemory, ShowsAtOnce, ShowsInFronts, FrontsAreCut, BehindIsTrailing};

/// Does nothing, and is there for its contract: the laws of the grammar of class files (chapter 4), which hold of all bytes and
/// trees. The contracts of reading and writing speak of that grammar.
pub fn class_file_laws()
    // Bytes are the class file of at most one tree.
    ensures one_tree { OneTree }

    // A tree has at most one class file.
    ensures one_spelling { OneSpelling }

    // A well-formed tree with a superclass has one: what it is written as.
    ensures spelled { IsSpelled }

    // Bytes are a class file, or have a first fault.
    ensures either { TreeOrFault }

    // Bytes that have a fault are no class file.
    ensures not_both { NotBoth }

    // What is written of a well-formed tree with a superclass is read as that tree.
    ensures read_back { ReadBack }

    // What was read is written as the same bytes.
    ensures written_back { WrittenBack }

    // Reading never finds that memory ran out.
    ensures no_memory { NoMemory }

    // The first fault of bytes is that of each file that begins with them, unless it says that they are cut off.
    ensures at_once { ShowsAtOnce }

    // A front of a file that has a fault has the same one, or is cut off, or is a class file.
    ensures in_fronts { ShowsInFronts }

    // A front of a class file that isn't all of it is cut off.
    ensures cut { FrontsAreCut }

    // Bytes behind a class file are trailing.
    ensures trailing { BehindIsTrailing }
{}
