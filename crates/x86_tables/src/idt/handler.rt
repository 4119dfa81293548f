//! Which form the handler of an entry has. An entry holds its handler's address; these types say which address may
//! stand there.

/// A handler of an interrupt, or of an exception without an error code.
#[derive(Clone, Copy, Debug)]
pub struct HandlerFunc;

/// A handler of an exception with an error code.
#[derive(Clone, Copy, Debug)]
pub struct HandlerFuncWithErrCode;

/// A handler of page faults, which takes a `PageFaultErrorCode`.
#[derive(Clone, Copy, Debug)]
pub struct PageFaultHandlerFunc;

/// A handler that does not return.
#[derive(Clone, Copy, Debug)]
pub struct DivergingHandlerFunc;

/// A handler of an exception with an error code that does not return.
#[derive(Clone, Copy, Debug)]
pub struct DivergingHandlerFuncWithErrCode;
