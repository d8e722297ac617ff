ghost use Rattle.std.specs.Prelude.{◌≡◌, ◌<◌, ◌∷◌, ◌++◌, [], OnOk, map, length, codes, decimal};
ghost use Rattle.im_text.specs.Fields.{field_text};
ghost use Rattle.im_text.specs.Records.{further};
ghost use Rattle.im_text.specs.inner.Pages as spec;
ghost use Rattle.im_text.specs.Cells.{cell_field, row_record};
ghost use Rattle.im_text.specs.inner.Shown.{shown};

use crate::field::Field;
use csv::{Writer, WriterBuilder};
use im_group::Cell;
use im_values::NoMemory;
use itoa::Buffer;

/// The records of replies, as they are written, and the line that is answered.
#[derive(Drop)]
pub struct Page {
    writer: Writer<Vec<u8>>,
    line: u64,
}

impl Page {
    /// A page that goes on behind these bytes. It takes no memory.
    pub fn over(bytes: Vec<u8>) -> Page
        ensures { spec.IsReady result }
    {
        let writer = WriterBuilder::new().flexible(true).from_writer(bytes);
        Page { writer, line: 0 }
    }

    /// What was written, but for what no flush has written out yet.
    pub fn bytes(&self) -> &[u8]
        ensures { result.now ≡ spec.bytes_of self.now }
    {
        self.writer.get_ref().as_slice()
    }

    /// Turns to the reply to this line.
    pub fn turn_to(&mut self, line: u64)
        requires { spec.IsReady self.old }
        ensures between { spec.IsBetween self.new }
        ensures line { self.new.line ≡ line }
        ensures same { spec.written self.new ≡ spec.bytes_of self.old }
    {
        self.line = line;
    }

    /// Writes out all that was written.
    pub fn flush(&mut self) -> Result<(), NoMemory>
        requires { spec.IsBetween self.old }
        ensures ready { OnOk result (spec.IsReady self.new) }
        ensures same { OnOk result (spec.bytes_of self.new ≡ spec.written self.old) }
    {
        match self.writer.flush() {
            Ok(()) => Ok(()),
            Err(_) => Err(NoMemory),
        }
    }

    /// Begins a record with the number of the line.
    pub fn begin(&mut self) -> Result<(), NoMemory>
        requires { spec.IsBetween self.old }
        ensures { OnOk result (spec.Adds self.old self.new (field_text (decimal self.old.line))) }
    {
        let mut digits = Buffer::new();
        match self.writer.write_field(digits.format(self.line).as_bytes()) {
            Ok(()) => Ok(()),
            Err(_) => Err(NoMemory),
        }
    }

    /// Begins a record with a word.
    pub fn begin_with(&mut self, word: &str) -> Result<(), NoMemory>
        requires between { spec.IsBetween self.old }
        requires some { 0 < length word.now }
        ensures { OnOk result (spec.Adds self.old self.new (field_text word.now)) }
    {
        match self.writer.write_field(word.as_bytes()) {
            Ok(()) => Ok(()),
            Err(_) => Err(NoMemory),
        }
    }

    /// Puts a further field.
    pub fn put(&mut self, field: &[u8]) -> Result<(), NoMemory>
        requires { spec.IsInside self.old }
        ensures { OnOk result (spec.Adds self.old self.new (44 ∷ field_text field.now)) }
    {
        match self.writer.write_field(field) {
            Ok(()) => Ok(()),
            Err(_) => Err(NoMemory),
        }
    }

    /// Puts a further field.
    pub fn put_field(&mut self, field: Field) -> Result<(), NoMemory>
        requires { spec.IsInside self.old }
        ensures { OnOk result (spec.Adds self.old self.new (44 ∷ field_text (shown field.entry))) }
    {
        let mut digits = Buffer::new();
        match field {
            Field::Word(word) => self.put(word.as_bytes()),
            Field::Number(number) => self.put(digits.format(number).as_bytes()),
            Field::Credits(credits) => self.put(digits.format(credits).as_bytes()),
        }
    }

    /// Puts a cell as a further field.
    fn put_cell(&mut self, cell: &Cell) -> Result<(), NoMemory>
        requires { spec.IsInside self.old }
        ensures { OnOk result (spec.Adds self.old self.new (44 ∷ field_text (cell_field cell.now))) }
    {
        match cell {
            Cell::Int(number) => self.put(Buffer::new().format(*number).as_bytes()),
            Cell::Text(text) => self.put(text.bytes()),
            Cell::Null => self.put(b""),
        }
    }

    /// Ends the record.
    pub fn end(&mut self) -> Result<(), NoMemory>
        requires { spec.IsInside self.old }
        ensures { OnOk result (spec.Ends self.old self.new (10 ∷ [])) }
    {
        match self.writer.end_record() {
            Ok(()) => Ok(()),
            Err(_) => Err(NoMemory),
        }
    }

    /// Puts further fields.
    pub fn put_fields(&mut self, fields: &[Field]) -> Result<(), NoMemory>
        requires { spec.IsInside self.old }
        ensures { OnOk result (spec.Adds self.old self.new (further (map shown fields.now))) }
    {
        for field in fields {
            self.put_field(*field)?;
        }
        Ok(())
    }

    /// Puts numbers as further fields.
    pub fn put_each_number(&mut self, numbers: &[u64]) -> Result<(), NoMemory>
        requires { spec.IsInside self.old }
        ensures { OnOk result (spec.Adds self.old self.new (further (map decimal numbers.now))) }
    {
        for number in numbers {
            self.put_field(Field::Number(*number))?;
        }
        Ok(())
    }

    /// Puts a word and numbers as further fields.
    pub fn put_phrase(&mut self, word: &str, numbers: &[u64]) -> Result<(), NoMemory>
        requires { spec.IsInside self.old }
        ensures { OnOk result (spec.Adds self.old self.new (further (word.now ∷ map decimal numbers.now))) }
    {
        self.put(word.as_bytes())?;
        self.put_each_number(numbers)
    }

    /// Puts cells as further fields.
    fn put_cells(&mut self, cells: &[Cell]) -> Result<(), NoMemory>
        requires { spec.IsInside self.old }
        ensures { OnOk result (spec.Adds self.old self.new (further (map cell_field cells.now))) }
    {
        for cell in cells {
            self.put_cell(cell)?;
        }
        Ok(())
    }

    /// Puts a record of these fields.
    pub fn put_record(&mut self, fields: &[Field]) -> Result<(), NoMemory>
        requires { spec.IsBetween self.old }
        ensures { OnOk result (spec.Puts self.old self.new (map shown fields.now ∷ [])) }
    {
        self.begin()?;
        self.put_fields(fields)?;
        self.end()
    }

    /// Puts a record of a word and numbers.
    pub fn put_numbers(&mut self, word: &str, numbers: &[u64]) -> Result<(), NoMemory>
        requires { spec.IsBetween self.old }
        ensures { OnOk result (spec.Puts self.old self.new ((word.now ∷ map decimal numbers.now) ∷ [])) }
    {
        self.begin()?;
        self.put_phrase(word, numbers)?;
        self.end()
    }

    /// Puts the record of a refusal with numbers.
    pub fn refuse(&mut self, code: &str, word: &str, numbers: &[u64]) -> Result<(), NoMemory>
        requires { spec.IsBetween self.old }
        ensures { OnOk result (spec.Puts self.old self.new ((codes "error" ∷ code.now ∷ word.now ∷ map decimal numbers.now) ∷ [])) }
    {
        self.begin()?;
        self.put(b"error")?;
        self.put(code.as_bytes())?;
        self.put(word.as_bytes())?;
        self.put_each_number(numbers)?;
        self.end()
    }

    /// Puts the record of a refusal with a name and numbers.
    pub fn refuse_name(
        &mut self,
        code: &str,
        word: &str,
        name: &[u8],
        numbers: &[u64],
    ) -> Result<(), NoMemory>
        requires { spec.IsBetween self.old }
        ensures { OnOk result (spec.Puts self.old self.new ((codes "error" ∷ code.now ∷ word.now ∷ name.now ∷ map decimal numbers.now) ∷ [])) }
    {
        self.begin()?;
        self.put(b"error")?;
        self.put(code.as_bytes())?;
        self.put(word.as_bytes())?;
        self.put(name)?;
        self.put_each_number(numbers)?;
        self.end()
    }

    /// Puts a record of an answer.
    pub fn put_row(&mut self, cells: &[Cell]) -> Result<(), NoMemory>
        requires { spec.IsBetween self.old }
        ensures { OnOk result (spec.Puts self.old self.new (row_record cells.now ∷ [])) }
    {
        self.begin()?;
        self.put(b"row")?;
        self.put_cells(cells)?;
        self.end()
    }
}
