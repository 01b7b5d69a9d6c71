// The types of a matrix's values.
use bed_write::WriteVal;
use stored_list::line::Section;
use stored_list::stored::Stored;

pub trait Value: Stored + WriteVal {
    // Where such values stand in a line.
    fn section() -> Section;
}

impl Value for i8 {
    fn section() -> Section {
        Section::I8s
    }
}

impl Value for f64 {
    fn section() -> Section {
        Section::F64s
    }
}
