mod doubles;
mod gates;
mod streams;
mod texts;
