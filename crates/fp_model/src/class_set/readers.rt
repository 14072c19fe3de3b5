//! What a set of classes holds, by number and by name. Reading takes no memory.
ghost use Rattle.std.specs.Prelude.{◌≡◌, ◌+◌, ◌<◌, ◌≤◌, Some, length, slice_get};
ghost use Rattle.fp_model.specs.ClassSet.{IsSet, fields_of, methods_of, first_field_of, first_method_of, class_named};

use super::ClassSet;
use super::index::{find_by_name, owner};
use crate::class::{Class, ClassId, Field, FieldId, Method, MethodId};
use fp_base::Names;

impl ClassSet {
    /// How many classes, fields and methods there are. Their numbers are those below.
    pub fn counts(&self) -> (u32, u32, u32)
        ensures classes { result.0 ≡ length self.now.classes }
        ensures fields { result.1 ≡ length (fields_of self.now.classes) }
        ensures methods { result.2 ≡ length (methods_of self.now.classes) }
        ensures set { IsSet self.now }
    {
        let classes = self.classes.len();
        let fields = self.firsts.fields[classes];
        let methods = self.firsts.methods[classes];
        (classes as u32, fields, methods)
    }

    /// The table of names that the numbers of the classes are of.
    pub fn names(&self) -> &Names
        ensures names { result.now ≡ self.now.names }
        ensures set { IsSet self.now }
    {
        &self.names
    }

    /// The class of this name, if there is one.
    pub fn find_class(&self, name: u32) -> Option<ClassId>
        ensures class { result ≡ class_named self.now.classes name }
        ensures set { IsSet self.now }
    {
        find_by_name(self.by_name.as_slice(), name)
    }

    /// The class of this number.
    pub fn class(&self, id: ClassId) -> &Class
        requires { id < length self.now.classes }
        ensures class { slice_get self.now.classes id ≡ Some result.now }
        ensures set { IsSet self.now }
    {
        &self.classes[id as usize]
    }

    /// The number of the first field of a class: how many fields the classes before it have.
    pub fn first_field(&self, id: ClassId) -> FieldId
        requires { id < length self.now.classes }
        ensures { result ≡ first_field_of self.now.classes id }
    {
        self.firsts.fields[id as usize]
    }

    /// The number of the first method of a class: how many methods the classes before it have.
    pub fn first_method(&self, id: ClassId) -> MethodId
        requires { id < length self.now.classes }
        ensures { result ≡ first_method_of self.now.classes id }
    {
        self.firsts.methods[id as usize]
    }

    /// The class that declares a field.
    pub fn class_of_field(&self, id: FieldId) -> ClassId
        requires { id < length (fields_of self.now.classes) }
        ensures class { result < length self.now.classes }
        ensures from { first_field_of self.now.classes result ≤ id }
        ensures to { id < first_field_of self.now.classes (result + 1) }
    {
        owner(self.firsts.fields.as_slice(), id)
    }

    /// The class that declares a method.
    pub fn class_of_method(&self, id: MethodId) -> ClassId
        requires { id < length (methods_of self.now.classes) }
        ensures class { result < length self.now.classes }
        ensures from { first_method_of self.now.classes result ≤ id }
        ensures to { id < first_method_of self.now.classes (result + 1) }
    {
        owner(self.firsts.methods.as_slice(), id)
    }

    /// The field of this number.
    pub fn field(&self, id: FieldId) -> &Field
        requires { id < length (fields_of self.now.classes) }
        ensures { slice_get (fields_of self.now.classes) id ≡ Some result.now }
    {
        let class = self.class_of_field(id);
        let place = id - self.first_field(class);
        &self.class(class).fields.as_slice()[place as usize]
    }

    /// The method of this number.
    pub fn method(&self, id: MethodId) -> &Method
        requires { id < length (methods_of self.now.classes) }
        ensures { slice_get (methods_of self.now.classes) id ≡ Some result.now }
    {
        let class = self.class_of_method(id);
        let place = id - self.first_method(class);
        &self.class(class).methods.as_slice()[place as usize]
    }
}
